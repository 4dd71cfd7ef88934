// The two answers that every layer hands to C: a yes or no, and a number, each with its refusal number
// before it.
ghost use Rattle.std.specs.Prelude.{◌≡◌};
ghost use Rattle.consts.specs.Answer.{yes_no_of, number_of};

use crate::refusal::Refusal;

// A test's answer, as C has it. A refused test says no.
#[repr(C)]
#[derive(Clone, Copy)]
pub struct YesNo {
    pub refusal: u8,
    pub value: bool,
}

// Laws: none of its own.
// Ruled out: of yes: no; of yes: yes under 1; of a refusal with 22: yes under 22; of the same: no under 0.
impl From<Result<bool, Refusal>> for YesNo {
    ghost from_gives = { λ r y. y ≡ yes_no_of r };

    fn from(r: Result<bool, Refusal>) -> YesNo {
        match r {
            Ok(value) => YesNo { refusal: 0, value },
            Err(why) => YesNo {
                refusal: why.into(),
                value: false,
            },
        }
    }
}

// A number as an answer, as C has it. A refused one is zero.
#[repr(C)]
#[derive(Clone, Copy)]
pub struct Number {
    pub refusal: u8,
    pub value: f64,
}

// Laws: none of its own.
// Ruled out: of 3: 0; of 3: 3 under 1; of a refusal with 4: a NaN under 4; of the same: 0 under 0.
impl From<Result<f64, Refusal>> for Number {
    ghost from_gives = { λ r y. y ≡ number_of r };

    fn from(r: Result<f64, Refusal>) -> Number {
        match r {
            Ok(value) => Number { refusal: 0, value },
            Err(why) => Number {
                refusal: why.into(),
                value: 0.0,
            },
        }
    }
}
