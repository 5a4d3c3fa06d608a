// A message at a stage, with the two buffers that the stage's calls take.
use crate::bits::front;
use packing::{Hex, unpack};
use stage::fault::StageFault;
use stage::setting::{MOST_BITS, Setting};
use stage::stages::Stage;

#[derive(Drop)]
pub struct Bench<'a, S> {
    pub stage: S,
    pub message: &'a [u8],
    pub setting: Setting,
    pub work: Vec<u8>,
    pub side: Vec<u8>,
}

impl<'a, S: Stage + Drop> Bench<'a, S> {
    pub fn new(
        rt: &HostRuntime,
        stage: S,
        message: &'a [u8],
        setting: Setting,
    ) -> anyhow::Result<Bench<'a, S>> {
        Ok(Bench {
            stage,
            message,
            setting,
            work: vec![in rt.alloc(); 0u8; MOST_BITS]?,
            side: vec![in rt.alloc(); 0u8; MOST_BITS]?,
        })
    }

    // How many bits the message has.
    pub fn bits(&self) -> usize {
        self.message.len().saturating_mul(8)
    }

    // Puts the message's word in the work buffer.
    pub fn forward(&mut self) -> Result<usize, StageFault> {
        let n = self.bits();
        unpack(self.message, &mut self.work);
        self.stage
            .forward(n, self.setting, &mut self.work, &mut self.side)
    }

    pub fn send(&mut self, rt: &HostRuntime) -> anyhow::Result<()> {
        let sent = self.forward();
        self.report(rt, "sent", sent)
    }

    pub fn receive(&mut self, rt: &HostRuntime) -> anyhow::Result<()> {
        let n = self.bits();
        let received = self
            .stage
            .back(n, self.setting, &mut self.work, &mut self.side);
        self.report(rt, "received", received)
    }

    // Prints what a call answered, and the bits that it left.
    fn report(
        &self,
        rt: &HostRuntime,
        done: &str,
        answer: Result<usize, StageFault>,
    ) -> anyhow::Result<()> {
        match answer {
            Ok(m) => {
                let bits = front(&self.work, m);
                println!(rt; "{done}: {m} bits {}", Hex { bits })?;
            }
            Err(fault) => println!(rt; "refused {}: {fault}", fault.number())?,
        }
        Ok(())
    }
}
