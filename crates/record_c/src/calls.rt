// The C interface: a slice is passed as its pointer and its length, a cause as its number.
ghost use Rattle.std.specs.Prelude.{◌≡◌};
ghost use Rattle.wire.specs.Shape.{bits_of};
ghost use Rattle.record.specs.Answer.{Answers, AnswersBoth};

// Returns 0 and writes the answer to out, each data cell's estimate and error to channel; or returns the cause and
// leaves both as they were.
#[unsafe(no_mangle)]
pub extern "C" fn refine_record_channel(record: &[u8], out: &mut [u8], channel: &mut [u8]) -> u32
    ensures { AnswersBoth «record».now result out.old out.new channel.old channel.new }
{
    cause::number(&record::refine_record_channel(record, out, channel))
}

// The same without the estimates: 10 + 4 × nbits bytes are written.
#[unsafe(no_mangle)]
pub extern "C" fn refine_record(record: &[u8], out: &mut [u8]) -> u32
    ensures { Answers «record».now result out.old out.new }
{
    cause::number(&record::refine_record(record, out))
}

// Bits of a record of an accepted shape, else 0: the host makes room for 10 + 4 times as many bytes.
#[tactic(auto, using(wire::proofs::Rows::bits_or_none))]
#[unsafe(no_mangle)]
pub extern "C" fn record_bits(record: &[u8]) -> usize
    ensures { result ≡ bits_of «record».now }
{
    record::record_bits(record).unwrap_or(0)
}
