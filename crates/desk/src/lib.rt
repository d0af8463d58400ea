// The desk: a check that counts (FORMAT 9.11, 9.12). It says how many tables it has heard, accepted and refused,
// and stops at the full count, where one more could not be counted.
#![tactic(auto)]

ghost use Rattle.std.specs.Prelude.{◌≡◌, ◌+◌, ◌<◌, eqb};
ghost use Rattle.meaning.specs.Reply.{reply};
ghost use Rattle.meaning.specs.Desk.{full_count, called, call_of};
ghost use Rattle.meaning.specs.Desk.{raised as raised_desk};
ghost use Rattle.service.specs.Reply.{reply_meaning};
ghost use Rattle.refusal.specs.Refusal.{number_of};
ghost use Rattle.desk.specs.Desk.{desk_meaning, called_meaning, Fresh, Answers, Agrees, CountsOne};

use refusal::{Refusal, Refused};
use service::check;

const FULL_COUNT: u64 = u64::MAX;

// Three counts, all 0 when fresh.
#[derive(Clone, Copy, Default)]
pub struct Desk {
    pub heard: u64,
    pub accepted: u64,
    pub refused: u64,
}

// The desk after a call, and the call's reply.
#[derive(Clone, Copy)]
pub struct Called {
    pub desk: Desk,
    pub reply: Result<(), Refused>,
}

impl Desk {
    #[tactic(auto, unfolding(meaning::specs::Desk::fresh_desk))]
    pub fn fresh() -> Desk
        ensures { Fresh result }
    {
        Desk::default()
    }

    // The public call, for every desk, also one whose counts were damaged: 19 and 20 come first and leave it as it is. By value, as `fresh` answers one: so a
    // call is lent nothing that it could write. FORMAT 10.19, 10.20, 13.8
    pub fn call(self, list: &[u8], table: &[u32]) -> Called
        ensures answers { Answers self (call_of list.now table.now) result.desk result.reply }
        ensures counts { Agrees self → self.heard < full_count → CountsOne self result.desk result.reply }
    {
        let agrees = self.agrees();
        let full = self.heard == FULL_COUNT;
        if !agrees {
            return self.refused_by(Refusal::DeskDamaged);
        }
        if full {
            return self.refused_by(Refusal::DeskFull);
        }
        let reply = check(list, table);
        let mut desk = self;
        desk.count(reply);
        Called { desk, reply }
    }

    // A call that is not counted: the desk stays as it is.
    fn refused_by(self, refusal: Refusal) -> Called
        ensures { called_meaning result.desk result.reply ≡ called (desk_meaning self) (reply (number_of refusal) 0) }
    {
        Called {
            desk: self,
            reply: Err(refusal.at(0)),
        }
    }

    // heard is accepted + refused, over whole numbers: the sum of a damaged desk's counts may be past 64 bits.
    fn agrees(self) -> bool
        ensures { result ≡ eqb self.heard (self.accepted + self.refused) }
    {
        self.accepted.checked_add(self.refused) == Some(self.heard)
    }

    // heard and one other count are one more.
    #[tactic(auto, using(crate::proofs::Calling::raises), unfolding(meaning::specs::Desk::full_count))]
    fn count(&mut self, reply: Result<(), Refused>)
        requires { Agrees self.old × (self.old.heard ≡ full_count → ⊥) }
        ensures { desk_meaning self.new ≡ raised_desk (desk_meaning self.old) (reply_meaning reply) }
    {
        self.heard += 1;
        match reply {
            Ok(()) => self.accepted += 1,
            Err(_) => self.refused += 1,
        }
    }
}
