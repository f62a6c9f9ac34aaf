// The answer from slot order to bit order.
ghost use Rattle.std.specs.Prelude.{◌≡◌, ◌≤◌, ◌<◌, length};
ghost use Rattle.bits.specs.Slots.{longest, bit_order};

// `room` takes the numbers in slot order.
pub fn to_bit_order(room: &mut [f32], answer: &mut [f32])
    requires { (length room.old ≡ length answer.old) × (0 < length answer.old) × (length answer.old ≤ longest) }
    ensures { answer.new ≡ bit_order (length answer.old) answer.old }
{
    dsp::copy(answer, room);
    bits::fill_bits(room, answer);
}
