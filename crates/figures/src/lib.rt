// Worked figures, proved.
#![tactic(auto)]

ghost use Rattle.figures.specs.Figures.{FiguresHold};

// Every figure of the list holds.
#[tactic(auto, using(crate::proofs::Worked::figures_hold))]
pub fn figures_hold()
    ensures { FiguresHold }
{}

#[cfg(test)]
mod tests {
    use calendar::time::Time;

    // Four parts from frame 0, subframe 8, each sent once.
    #[test]
    fn four_parts(rt: HostRuntime) {
        let mut time = Time {
            frame: 0,
            subframe: 8,
        };
        for (frame, subframe) in [(0u16, 8u8), (1, 1), (1, 2), (1, 3)] {
            time = time.next_open();
            assert_eq!(rt; time, Time { frame, subframe });
            time = time.step();
        }
    }
}
