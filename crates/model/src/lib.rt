// A fitted model: the estimate of each state (document 01, "The fit", "Model and signal").
#![tactic(auto)]

pub mod inner;

ghost use Rattle.std.specs.Prelude.{◌≡◌};
ghost use Rattle.model.specs.Status.{status_number, StatusRead};

// Whether a state's adjustment is used: `status_number` of specs/Status.antt.
#[derive(Clone, Copy, Debug, PartialEq, Eq)]
pub enum StateStatus {
    // The adjustment is estimated and used.
    Calibrated,
    // Too few observations; the signal is the mid.
    Rare,
    // The data never leads from this state to a mid move; the signal is the mid.
    NoPriceMove,
    // The limit lies outside the quotes; the signal is the mid.
    OutsideQuotes,
}

// A word of the model table that is no status's number.
#[derive(Clone, Copy, Debug, PartialEq, Eq)]
pub struct UnknownStatus(pub u64);

impl From<StateStatus> for u64 {
    ghost from_gives = { λ status number. number ≡ status_number status };

    fn from(status: StateStatus) -> u64 {
        match status {
            StateStatus::Calibrated => 0,
            StateStatus::Rare => 1,
            StateStatus::NoPriceMove => 2,
            StateStatus::OutsideQuotes => 3,
        }
    }
}

impl TryFrom<u64> for StateStatus {
    type Error = UnknownStatus;

    ghost try_from_gives = { StatusRead };

    fn try_from(number: u64) -> Result<Self, UnknownStatus> {
        match number {
            0 => Ok(StateStatus::Calibrated),
            1 => Ok(StateStatus::Rare),
            2 => Ok(StateStatus::NoPriceMove),
            3 => Ok(StateStatus::OutsideQuotes),
            _ => Err(UnknownStatus(number)),
        }
    }
}

// A state of the model table. Any words and floats may stand in it; the model check judges them.
#[derive(Clone, Copy)]
pub struct StateEstimate {
    // Imbalance bucket, from 1.
    pub imbalance_bucket: u64,
    // Spread in ticks, from 1.
    pub spread_ticks: u64,
    // Pairs out of this state, mirrors included.
    pub observations: u64,
    // G1, in price units.
    pub first_adjustment: f64,
    // G*, in price units.
    pub adjustment: f64,
    // Share that is absorbed by a fallback state within the fallback rounds, 10 by default, each a mid move.
    pub fallback_within_moves: f64,
    // The number of a `StateStatus`; any other word is kept as it is: the table is lent, and the model check judges what stands there.
    pub status: u64,
}
