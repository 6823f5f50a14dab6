// Banks at work: the same lists of calls on every kind of bank, and where the bytes lie.
#![tactic(auto)]

ghost use Rattle.std.specs.Prelude.{◌≡◌, length, if◌then◌else◌, Ok, Err, nat_eq};
ghost use Rattle.refusal.specs.declared.Refusal.TheVariants.{Frames};
ghost use Rattle.banks.specs.Memory.{whole_frames};

use bank::Bank;
use banks::FlatBank;
use refusal::Refusal;

// What the first grant answers of a flat bank over a memory: the frame 0, if the memory has frames.
pub fn first_grant(memory: &mut [u8]) -> Result<u32, Refusal>
    ensures { result ≡ (if nat_eq (whole_frames (length memory.old)) 0 then Err Frames else Ok 0) }
{
    FlatBank::new(memory).grant()
}

#[cfg(test)]
mod tests {
    use bank::Bank;
    use banks::{FlatBank, LaneBank, Quota};
    use refusal::Refusal;
    use std::process::Abort;

    // A call on a bank: a read or a write has a frame, an offset and how many bytes, and a write the byte that it
    // puts everywhere. It is no closure, since one table of calls is made on banks of several types.
    #[derive(Clone, Copy)]
    enum Call {
        Grant,
        GiveBack(u32),
        Read(u32, u32, usize),
        Write(u32, u32, usize, u8),
        Reset,
        Size,
    }

    // What a call answers: a number for a grant, for the size, and for a read the largest byte that it read; 0 for the
    // others, which answer nothing.
    fn answer<B: Bank>(bank: &mut B, call: Call) -> Result<u32, Refusal> {
        match call {
            Call::Grant => bank.grant(),
            Call::GiveBack(frame) => bank.give_back(frame).map(|()| 0),
            Call::Read(frame, offset, bytes) => {
                let mut buffer = [0u8; 2048];
                let part = &mut buffer[0..bytes.min(2048)];
                bank.read(frame, offset, part)?;
                Ok(part.iter().copied().max().map_or(0, u32::from))
            }
            Call::Write(frame, offset, bytes, value) => {
                let buffer = [value; 2048];
                bank.write(frame, offset, &buffer[0..bytes.min(2048)])
                    .map(|()| 0)
            }
            Call::Reset => {
                bank.reset();
                Ok(0)
            }
            Call::Size => Ok(bank.size()),
        }
    }

    // Makes the calls one after another, and checks each answer.
    fn play<B: Bank>(rt: &impl Abort, bank: &mut B, calls: &[(Call, Result<u32, Refusal>)]) {
        for (call, expected) in calls {
            assert_eq!(rt; answer(bank, *call), *expected);
        }
    }

    // What any bank of two frames answers.
    fn two_frames<B: Bank>(rt: &impl Abort, bank: &mut B) {
        play(
            rt,
            bank,
            &[
                (Call::Size, Ok(2)),
                (Call::Read(0, 0, 1), Err(Refusal::NotOut)),
                (Call::Grant, Ok(0)),
                (Call::Grant, Ok(1)),
                (Call::Grant, Err(Refusal::Frames)),
                (Call::Write(0, 0, 1024, 5), Ok(0)),
                (Call::Write(1, 1023, 1, 9), Ok(0)),
                (Call::Write(1, 1023, 2, 7), Err(Refusal::Edge)),
                (Call::Read(1, 0, 1023), Ok(0)),
                (Call::Read(1, 0, 1024), Ok(9)),
                (Call::Read(1, 1023, 1), Ok(9)),
                (Call::Read(0, 0, 1024), Ok(5)),
            ],
        );
        play(
            rt,
            bank,
            &[
                (Call::Read(0, 0, 0), Ok(0)),
                (Call::Read(0, 1024, 0), Ok(0)),
                (Call::Read(0, 1024, 1), Err(Refusal::Edge)),
                (Call::Write(0, 1025, 0, 1), Err(Refusal::Edge)),
                (Call::Write(0, u32::MAX, 0, 1), Err(Refusal::Edge)),
                (Call::Write(0, u32::MAX, 1, 1), Err(Refusal::Edge)),
                (Call::Read(0, 0, 1025), Err(Refusal::Edge)),
                (Call::Read(u32::MAX, 0, 1025), Err(Refusal::Edge)),
                (Call::Read(u32::MAX, 0, 1), Err(Refusal::NotOut)),
                (Call::Write(2, 0, 1, 1), Err(Refusal::NotOut)),
                (Call::GiveBack(2), Err(Refusal::NotOut)),
                (Call::GiveBack(u32::MAX), Err(Refusal::NotOut)),
            ],
        );
        play(
            rt,
            bank,
            &[
                (Call::GiveBack(0), Ok(0)),
                (Call::GiveBack(0), Err(Refusal::NotOut)),
                (Call::Read(0, 0, 1), Err(Refusal::NotOut)),
                (Call::Grant, Ok(0)),
                (Call::Read(0, 0, 1024), Ok(0)),
                (Call::GiveBack(0), Ok(0)),
                (Call::GiveBack(1), Ok(0)),
                (Call::Grant, Ok(1)),
                (Call::Read(1, 0, 1024), Ok(0)),
                (Call::Write(1, 0, 1, 3), Ok(0)),
                (Call::Reset, Ok(0)),
                (Call::Grant, Ok(0)),
                (Call::Grant, Ok(1)),
                (Call::Read(1, 0, 1024), Ok(0)),
            ],
        );
    }

    // What a bank of at least two frames answers of which one may be out at a time.
    fn one_at_a_time<B: Bank>(rt: &impl Abort, bank: &mut B) {
        play(
            rt,
            bank,
            &[
                (Call::Grant, Ok(0)),
                (Call::Grant, Err(Refusal::Frames)),
                (Call::Write(0, 0, 1, 1), Ok(0)),
                (Call::GiveBack(0), Ok(0)),
                (Call::Grant, Ok(0)),
                (Call::Read(0, 0, 1), Ok(0)),
                (Call::Grant, Err(Refusal::Frames)),
                (Call::Reset, Ok(0)),
                (Call::Grant, Ok(0)),
                (Call::Grant, Err(Refusal::Frames)),
            ],
        );
    }

    // What a bank answers that has no frames to grant.
    fn nothing_to_grant<B: Bank>(rt: &impl Abort, bank: &mut B) {
        play(
            rt,
            bank,
            &[
                (Call::Grant, Err(Refusal::Frames)),
                (Call::GiveBack(0), Err(Refusal::NotOut)),
                (Call::Write(0, 0, 1, 1), Err(Refusal::NotOut)),
                (Call::Reset, Ok(0)),
                (Call::Grant, Err(Refusal::Frames)),
            ],
        );
    }

    #[test]
    fn lengths_of_memory(rt: HostRuntime) {
        let memory = [0u8; 66560];
        for n in [0, 1, 1023, 1025, 65535, 66560] {
            assert_eq!(rt; FlatBank::check(&memory[0..n]), Err(Refusal::Row));
            assert_eq!(rt;
                LaneBank::check(&memory[0..n], &memory[0..n]),
                Err(Refusal::Row)
            );
        }
        for n in [1024, 2048, 65536] {
            assert_eq!(rt; FlatBank::check(&memory[0..n]), Ok(()));
            assert_eq!(rt;
                LaneBank::check(&memory[0..n / 2], &memory[0..n / 2]),
                Ok(())
            );
            assert_eq!(rt;
                LaneBank::check(&memory[0..n / 2], &memory[0..n]),
                Err(Refusal::Row)
            );
        }
    }

    #[test]
    fn flat(rt: HostRuntime) {
        let mut memory = [7; 2048];
        two_frames(&rt, &mut FlatBank::new(&mut memory));
    }

    #[test]
    fn lanes(rt: HostRuntime) {
        let mut first = [7; 1024];
        let mut second = [7; 1024];
        two_frames(&rt, &mut LaneBank::new(&mut first, &mut second));
    }

    #[test]
    fn wide_quotas(rt: HostRuntime) {
        let mut memory = [7; 2048];
        two_frames(&rt, &mut Quota::new(FlatBank::new(&mut memory), 2));
        two_frames(&rt, &mut Quota::new(FlatBank::new(&mut memory), 255));
        let mut first = [7; 1024];
        let mut second = [7; 1024];
        two_frames(
            &rt,
            &mut Quota::new(Quota::new(LaneBank::new(&mut first, &mut second), 2), 255),
        );
    }

    #[test]
    fn narrow_quotas(rt: HostRuntime) {
        let mut memory = [7; 2048];
        one_at_a_time(&rt, &mut Quota::new(FlatBank::new(&mut memory), 1));
        nothing_to_grant(&rt, &mut Quota::new(FlatBank::new(&mut memory), 0));
        let mut first = [7; 1024];
        let mut second = [7; 1024];
        one_at_a_time(
            &rt,
            &mut Quota::new(Quota::new(LaneBank::new(&mut first, &mut second), 1), 2),
        );
    }

    #[test]
    fn where_bytes_lie(rt: HostRuntime) {
        let calls = [
            (Call::Grant, Ok(0)),
            (Call::Grant, Ok(1)),
            (Call::Write(1, 6, 1, 8), Ok(0)),
            (Call::Write(1, 9, 1, 9), Ok(0)),
        ];
        let mut memory = [7; 2048];
        play(&rt, &mut FlatBank::new(&mut memory), &calls);
        assert_eq!(rt;
            (memory[1029], memory[1030], memory[1031], memory[1033]),
            (0, 8, 0, 9)
        );
        let mut first = [7; 1024];
        let mut second = [7; 1024];
        play(&rt, &mut LaneBank::new(&mut first, &mut second), &calls);
        assert_eq!(rt;
            (first[515], second[515], first[516], second[516]),
            (8, 0, 0, 9)
        );
    }

    #[test]
    fn wrong_memory(rt: HostRuntime) {
        let mut memory = [7; 1025];
        nothing_to_grant(&rt, &mut FlatBank::new(&mut memory));
        assert_eq!(rt; (memory[0], memory[1024]), (7, 7));
        let mut first = [7; 1024];
        let mut second = [7; 512];
        nothing_to_grant(&rt, &mut LaneBank::new(&mut first, &mut second));
        assert_eq!(rt; (first[0], second[511]), (7, 7));
    }
}
