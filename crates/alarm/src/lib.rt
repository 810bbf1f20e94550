// A kind of label as another firm might write it, outside the crate of the trait: whether a run may sound the alarm.
// Its labels are not one to one with its values: any loudness above 0 means the same.
#![tactic(auto)]

ghost use Rattle.std.specs.Prelude.{Bool, nat_lt};
ghost use Rattle.alarm.specs.AlarmAlgebra.{alarm_algebra};
ghost use Rattle.alarm.specs.AlarmLaws.{alarm_laws};

use analysis::kind::Kind;
use analysis::parties::Parties;

// Charges above this many microampere-hours sound the alarm.
const LOUD: u32 = 1000;

// No `PartialEq`, since labels that differ may mean the same.
#[derive(Clone, Copy, Debug)]
pub struct Alarm {
    pub loudness: u8,
}

impl Kind for Alarm {
    ghost Value = { Bool };

    ghost value = { λ x. nat_lt 0 x.loudness };

    ghost algebra = { alarm_algebra };

    ghost lawful = { alarm_laws };

    fn unit() -> Alarm {
        Alarm { loudness: 0 }
    }

    fn then(&self, other: &Alarm) -> Alarm {
        Alarm {
            loudness: self.loudness.max(other.loudness),
        }
    }

    fn either(&self, other: &Alarm) -> Alarm {
        self.then(other)
    }

    fn belongs(&self, _parties: Parties) -> bool {
        true
    }

    fn suits(_bytes: &[u8; 32], _parties: Parties) -> bool {
        true
    }

    fn make(bytes: &[u8; 32], _parties: Parties) -> Alarm {
        let [_, _, _, _, b4, b5, b6, b7, ..] = *bytes;
        let most = u32::from_be_bytes([b4, b5, b6, b7]);
        let loudness = if most > LOUD { 9 } else { 0 };
        Alarm { loudness }
    }

    fn tell(&self) -> (u64, u64) {
        (u64::from(self.loudness > 0), 0)
    }
}
