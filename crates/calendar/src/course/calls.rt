ghost use Rattle.std.specs.Prelude.{◌≡◌, ◌+◌, ◌*◌, ◌^◌, ◌<◌, ◌≤◌, IfOk};
ghost use Rattle.std.specs.Option.{option_map};
ghost use Rattle.std.specs.Result.{result_err};
ghost use Rattle.calendar.specs.Calendar.{CalendarHolds};
ghost use Rattle.calendar.specs.Grants.{Allowed, grant_refusal, part_bits, output};
ghost use Rattle.calendar.specs.Identities.{number_of};
ghost use Rattle.calendar.specs.Rounds.{copies, round, whole, part_at, owed, first_copy, last_part, round_first, seed_at};
ghost use Rattle.calendar.specs.Times.{open_at};
ghost use Rattle.calendar.specs.Courses.{going_of, begun, one_on};

use crate::course::Course;
use crate::fault::GrantFault;
use crate::grant::Grant;
use crate::identity::Identity;
use crate::time::Time;

impl Course {
    // A grant that starts at a time. Tests 10 to 13.
    #[tactic(auto, using(crate::proofs::Rules::calendar_holds, crate::proofs::Rules::allowed, crate::proofs::Openings::opens_first, crate::proofs::Rounds::first_round, crate::proofs::Counting::round_some, crate::proofs::Counting::whole_some))]
    pub fn begin(grant: Grant, start: Time) -> Result<Course, GrantFault>
        ensures refusal { result_err result ≡ grant_refusal grant }
        ensures accepted { IfOk result (λ c. going_of c ≡ begun grant start) }
        ensures calendar { CalendarHolds }
    {
        grant.check()?;
        let next = start.next_open();
        Ok(Course {
            grant,
            start,
            gone: 0,
            next,
            first: next,
        })
    }

    pub fn grant(self) -> Grant
        ensures { result ≡ (going_of self).grant }
    {
        self.grant
    }

    // The part that goes out in the next open subframe.
    #[tactic(auto, unfolding(crate::specs::Rounds::part_at))]
    pub fn part(self) -> u32
        ensures value { result ≡ part_at (going_of self).grant (going_of self).gone }
        ensures below { result < (going_of self).grant.subframes }
    {
        self.gone % self.round() / self.copies()
    }

    // How many open subframes are owed after the next one.
    pub fn owed(self) -> u32
        ensures { result ≡ owed (going_of self).grant (going_of self).gone }
    {
        self.whole() - (self.gone + 1)
    }

    // Whether the part goes out for the first time.
    #[tactic(auto, unfolding(crate::specs::Rounds::first_copy))]
    pub fn is_first_copy(self) -> bool
        ensures { result ≡ first_copy (going_of self).grant (going_of self).gone }
    {
        self.gone < self.round() && self.gone % self.copies() == 0
    }

    // Whether the part is the word's last.
    pub fn is_last_part(self) -> bool
        ensures { result ≡ last_part (going_of self).grant (going_of self).gone }
    {
        self.part() + 1 == self.grant.subframes
    }

    // The seed of the round under way.
    #[tactic(auto, unfolding(crate::specs::Rounds::seed_at))]
    pub fn seed(self, identity: Identity) -> u32
        ensures value { result ≡ seed_at (number_of identity) (going_of self).grant (going_of self).start (going_of self).gone }
        ensures most { result < 2 ^ 31 }
    {
        let parity = self.first.frame as u32 % 2;
        let subframe = self.first.subframe as u32;
        (self.grant.rnti << 14) + (parity << 13) + (subframe << 9) + identity.value() as u32
    }

    // The length of the word.
    pub fn output(self) -> usize
        ensures value { result ≡ output (going_of self).grant }
        ensures most { result ≤ part_bits * 10 }
    {
        self.grant.output()
    }

    // The length of the block.
    pub fn length(self) -> usize
        ensures value { result ≡ (going_of self).grant.length }
        ensures least { 16 ≤ result }
        ensures most { result ≤ 2536 }
        ensures allowed { Allowed (going_of self).grant }
    {
        self.grant.length
    }

    // What is left once the next open subframe is gone: nothing after the last.
    #[tactic(auto, using(crate::proofs::Openings::opens_next))]
    pub fn advanced(self) -> Option<Course>
        ensures { option_map going_of result ≡ one_on (going_of self) }
    {
        if self.owed() == 0 {
            return None;
        }
        let following = self.next.step().next_open();
        Some(Course {
            grant: self.grant,
            start: self.start,
            gone: self.gone + 1,
            next: following,
            first: self.round_start(following),
        })
    }

    // The first open subframe of the round of `following`, which is the open one after the next.
    #[tactic(auto, using(crate::proofs::Rounds::round_here, crate::proofs::Rounds::round_on, crate::proofs::Counting::round_some))]
    fn round_start(self, following: Time) -> Time
        requires { following ≡ open_at self.start (self.gone + 1) }
        ensures { result ≡ open_at self.start (round_first self.grant (self.gone + 1)) }
    {
        if (self.gone + 1) % self.round() == 0 {
            following
        } else {
            self.first
        }
    }

    // How often running a part goes out.
    fn copies(self) -> u32
        ensures { result ≡ copies self.grant }
    {
        self.grant.repetitions.min(4)
    }

    // How many open subframes a round has.
    fn round(self) -> u32
        ensures { result ≡ round self.grant }
    {
        self.grant.subframes * self.copies()
    }

    // How many open subframes the grant has.
    fn whole(self) -> u32
        ensures { result ≡ whole self.grant }
    {
        self.grant.subframes * self.grant.repetitions
    }
}
