// What a frame does to its vehicle's reception and to the buffer.
ghost use Rattle.std.specs.Prelude.{◌≡◌, ◌≢◌, ℕ, ◌+◌, ◌≤◌, min, length};
ghost use Rattle.readings.specs.declared.position.Position.{Position};
ghost use Rattle.receiver.specs.declared.frame.Judged.TheVariants.{First};
ghost use Rattle.receiver.specs.Receptions.{closed};
ghost use Rattle.receiver.specs.Wire.{IsFirst};
ghost use Rattle.receiver.specs.Steps.{gap_of, left_of, taken_step, followed, step_of, Gives};

use crate::bytes::{store, store_each};
use crate::frame::Judged;
use crate::offered::Offered;
use crate::outcome::Outcome;
use crate::reception::{BUFFER, Reception, region};
use crate::sound::Sound;
use identifiers::Refusal;
use readings::Position;

// The longest gap between two frames of a train, in milliseconds.
const LONGEST_GAP: u32 = 150;

// Milliseconds from the earlier stamp to the later; stamps run round.
#[tactic(auto, unfolding(crate::specs::Steps::gap_of))]
fn gap(later: u32, earlier: u32) -> u32
    ensures { result ≡ gap_of later earlier }
{
    later.wrapping_sub(earlier)
}

impl Sound {
    #[tactic(auto, unfolding(crate::specs::Receptions::sound_reception, crate::specs::Lent::in_bytes, identifiers::specs::Choice::pick, identifiers::specs::Choice::both))]
    fn close(&mut self)
        ensures { self.new.reception ≡ closed }
    {
        self.reception = Reception::CLOSED;
    }

    // Buffer and frame stand apart here and below: of a struct that lends the buffer each contract would have to say besides that it lends
    // the same one.
    // A consecutive frame in order and in time is taken, behind what is done; the last one ends the train.
    fn take(
        &mut self,
        buffer: &mut [u8; BUFFER],
        frame: Offered,
        from: Position,
        left: usize,
    ) -> Outcome
        requires { (self.old.reception.length ≢ 0) × (left ≡ left_of self.old.reception) × (2 + min 6 left ≤ length frame.data.now) }
        ensures { Gives buffer.old frame.entry.data.now (taken_step self.old.reception from frame.entry.stamp) self.new.reception (Ok result) buffer.new }
    {
        let Reception {
            length,
            taken,
            last: _,
        } = self.reception;
        let at = region(from) + (length as usize - left);
        if 6 < left {
            store(buffer, at, &frame.data[2..8]);
            self.reception = Reception {
                length,
                taken: taken + 1,
                last: frame.stamp,
            };
            return Outcome::Taken { from };
        }
        store_each(buffer, at, &frame.data[2..2 + left]);
        self.close();
        Outcome::Train {
            from,
            length: length as u8,
        }
    }

    // A consecutive frame: 12, then 9, 13 and 14.
    fn follow(
        &mut self,
        buffer: &mut [u8; BUFFER],
        frame: Offered,
        from: Position,
        number: u8,
    ) -> Result<Outcome, Refusal>
        ensures { Gives buffer.old frame.entry.data.now (followed self.old.reception from number (length frame.entry.data.now) frame.entry.stamp) self.new.reception result buffer.new }
    {
        let Reception {
            length,
            taken,
            last,
        } = self.reception;
        if length == 0 {
            return Err(Refusal::NothingOpen);
        }
        let left = length as usize - (5 + 6 * taken as usize);
        if frame.data.len() < 2 + usize::min(6, left) {
            return Err(Refusal::Malformed);
        }
        if number as u32 != (taken + 1) % 16 {
            self.close();
            return Err(Refusal::WrongNumber);
        }
        if LONGEST_GAP < gap(frame.stamp, last) {
            self.close();
            return Err(Refusal::Late);
        }
        Ok(self.take(buffer, frame, from, left))
    }

    // What a judged frame does.
    pub fn step(
        &mut self,
        buffer: &mut [u8; BUFFER],
        frame: Offered,
        judged: Judged,
    ) -> Result<Outcome, Refusal>
        requires { (p : Position) (L : ℕ) → judged ≡ First p L → IsFirst frame.data.now L }
        ensures { Gives buffer.old frame.entry.data.now (step_of self.old.reception (Ok judged) (length frame.entry.data.now) frame.entry.stamp) self.new.reception result buffer.new }
    {
        match judged {
            Judged::Single {
                from,
                functional,
                length,
            } => {
                if !functional {
                    self.close();
                }
                Ok(Outcome::Single {
                    from,
                    functional,
                    length,
                })
            }
            Judged::First { from, length } => {
                store(buffer, region(from), &frame.data[3..8]);
                self.reception = Reception {
                    length: length as u32,
                    taken: 0,
                    last: frame.stamp,
                };
                Ok(Outcome::Opened { from })
            }
            Judged::OverLong { from } => {
                self.close();
                Ok(Outcome::OverLong { from })
            }
            Judged::Consecutive { from, number } => self.follow(buffer, frame, from, number),
        }
    }
}
