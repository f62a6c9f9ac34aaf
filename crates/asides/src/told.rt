// What an entry answers, in numbers: 0 and its values, or the cause's number and zeros.
ghost use Rattle.std.specs.Prelude.{◌≡◌, List, Float};
ghost use Rattle.asides.specs.Told.{told_by};

use cause::Cause;

// The number stands beside the values, since the C interface needs it.
#[repr(C)]
#[derive(Clone, Copy)]
pub struct Told {
    pub number: u32,
    pub values: [f32; 3],
}

// What is told of an accepted call's answer. No `From` into an array: both types would be other crates', for
// which no impl may stand here.
pub(crate) trait Values {
    ghost numbers: { Self → List Float };

    fn values(self) -> [f32; 3]
        ensures { result ≡ numbers self };
}

pub(crate) fn tell<T: Values>(answer: Result<T, Cause>) -> Told
    ensures { result ≡ told_by T.numbers answer }
{
    match answer {
        Err(cause) => Told {
            number: u32::from(cause),
            values: [0.0; 3],
        },
        Ok(x) => Told {
            number: 0,
            values: x.values(),
        },
    }
}
