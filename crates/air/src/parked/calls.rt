ghost use Rattle.std.specs.Prelude.{◌≡◌, OnErr};
ghost use Rattle.calendar.specs.Times.{after};
ghost use Rattle.air.specs.Ends.{end_of, InRange, fresh, with_identity, with_time};

use crate::fault::ParkFault;
use crate::parked::Parked;
use calendar::identity::Identity;
use calendar::time::Time;

impl Parked {
    // A new end has identity, frame and subframe 0.
    pub fn new() -> Parked
        ensures { end_of result ≡ fresh }
    {
        Parked {
            identity: Identity::zero(),
            time: Time {
                frame: 0,
                subframe: 0,
            },
        }
    }

    // Sets the identity. Test 1.
    pub fn set_identity(&mut self, identity: u32) -> Result<(), ParkFault>
        ensures answer { (result, end_of self.new) ≡ with_identity (end_of self.old) identity }
        ensures untouched { OnErr result (self.new ≡ self.old) }
    {
        self.identity = Identity::new(identity).ok_or(ParkFault::Identity)?;
        Ok(())
    }

    // Sets frame and subframe. Tests 2 and 3.
    pub fn set_time(&mut self, frame: u32, subframe: u32) -> Result<(), ParkFault>
        ensures answer { (result, end_of self.new) ≡ with_time (end_of self.old) frame subframe }
        ensures untouched { OnErr result (self.new ≡ self.old) }
    {
        if frame > 1023 {
            return Err(ParkFault::Frame);
        }
        if subframe > 9 {
            return Err(ParkFault::Subframe);
        }
        self.time = Time {
            frame: frame as u16,
            subframe: subframe as u8,
        };
        Ok(())
    }

    pub fn identity(&self) -> u16
        ensures { result ≡ (end_of self.now).identity }
    {
        self.identity.value()
    }

    // The identity, as its own type.
    pub(crate) fn known(&self) -> Identity
        ensures { result ≡ self.now.identity }
    {
        self.identity
    }

    pub fn time(&self) -> Time
        ensures { result ≡ (end_of self.now).time }
    {
        self.time
    }

    // Another parked end with this one's identity and time.
    pub fn twin(&self) -> Parked
        ensures same { end_of result ≡ end_of self.now }
        ensures ranged { InRange (end_of self.now) }
    {
        Parked {
            identity: self.identity,
            time: self.time,
        }
    }

    // The clock goes one subframe on.
    pub(crate) fn step(&mut self)
        ensures { end_of self.new ≡ record { identity = (end_of self.old).identity; time = after (end_of self.old).time } }
    {
        self.time = self.time.step();
    }
}
