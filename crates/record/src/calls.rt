// The calls on a record: its answer, its answer with the channel, its bits.
ghost use Rattle.std.specs.Prelude.{◌≡◌, ◌≤◌, length};
ghost use Rattle.cause.specs.Causes.{number_of};
ghost use Rattle.wire.specs.Shape.{shape_refusal, bits_in, answer_length, channel_length};
ghost use Rattle.record.specs.Answer.{Answers, AnswersBoth};

use crate::judging::judge;
use cause::Cause;
use wire::{fields_of, head, numbers, sizes_in};

// A record whose shape is accepted, with room for the answer.
#[tactic(auto, using(crate::proofs::Cutting::bits_counted, crate::proofs::Cutting::cells_counted))]
fn judge_record(record: &[u8], out: &mut [u8], channel: &mut [u8]) -> Result<(), Cause>
    requires shaped { shape_refusal «record».now ≡ 0 }
    requires out_room { answer_length «record».now ≤ length out.old }
    requires channel_room { channel_length «record».now ≤ length channel.old }
    ensures { AnswersBoth «record».now (number_of result) out.old out.new channel.old channel.new }
{
    // The most numbers that 8,192 bytes have room for.
    let mut page = [0.0; 2046];
    let n = (record.len() - 6) / 4;
    let nums = &mut page[..n];
    numbers(record, nums);
    judge(fields_of(head(record)), nums, out, channel)
}

// Writes the answer to out, each data cell's estimate and error to channel; or returns the cause and leaves both as
// they were.
pub fn refine_record_channel(record: &[u8], out: &mut [u8], channel: &mut [u8]) -> Result<(), Cause>
    ensures { AnswersBoth «record».now (number_of result) out.old out.new channel.old channel.new }
{
    let z = sizes_in(record)?;
    if out.len() < 10 + 4 * z.nbits {
        return Err(Cause::Room);
    }
    let channel_room = channel.len();
    if channel_room < 4 * (3 * z.ncell) {
        return Err(Cause::Room);
    }
    judge_record(record, out, channel)
}

// The same without the estimates: 10 + 4 × nbits bytes are written.
pub fn refine_record(record: &[u8], out: &mut [u8]) -> Result<(), Cause>
    ensures { Answers «record».now (number_of result) out.old out.new }
{
    // The estimates of any record, which are dropped. With `None` for the list only their bytes would not be made: the
    // refinement writes the estimates in any case, into a list of `judge`'s, and each contract would have a case more.
    let mut channel = [0; 8172];
    refine_record_channel(record, out, &mut channel)
}

// Bits of a record of an accepted shape: the host makes room for 10 + 4 times as many bytes.
pub fn record_bits(record: &[u8]) -> Option<usize>
    ensures { result ≡ bits_in «record».now }
{
    wire::bits(record)
}
