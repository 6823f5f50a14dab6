// Pools at work: the same lists of commands over every kind of bank, and calls at the edges of what they accept.
#![tactic(auto)]

#[cfg(test)]
mod tests {
    use bank::Bank;
    use banks::{FlatBank, LaneBank, Quota};
    use model::Counts;
    use pairing::Greedy;
    use playback::{Command, Line, play};
    use pool::Pool;
    use refusal::Refusal;
    use std::alloc::{AllocError, Global};
    use std::mem;
    use std::process::Abort;
    use std::test::Fail;

    // The bytes of a list of commands.
    fn encode(heap: Global, commands: &[Command]) -> Result<Vec<u8>, AllocError> {
        let mut list = Vec::new(heap);
        for command in commands {
            match *command {
                Command::New(label, length) => {
                    let [high, low] = length.to_be_bytes();
                    list.extend_from_slice(&[b'N', label, high, low])?;
                }
                Command::Write(label, offset, count, value) => {
                    let [high, low] = offset.to_be_bytes();
                    list.extend_from_slice(&[b'W', label, high, low])?;
                    let [high, low] = count.to_be_bytes();
                    list.extend_from_slice(&[high, low, value])?;
                }
                Command::Read(label, offset) => {
                    let [high, low] = offset.to_be_bytes();
                    list.extend_from_slice(&[b'R', label, high, low])?;
                }
                Command::Fetch(address) => {
                    let [_, high, middle, low] = address.to_be_bytes();
                    list.extend_from_slice(&[b'F', high, middle, low])?;
                }
                Command::Place(label) => list.extend_from_slice(&[b'P', label])?,
                Command::Delete(label) => list.extend_from_slice(&[b'D', label])?,
                Command::Mesh(class) => list.extend_from_slice(&[b'M', class])?,
                Command::Count => list.extend_from_slice(&[b'C'])?,
            }
        }
        Ok(list)
    }

    // A pool just opened over the bank, with Greedy and seed 1, plays a list of bytes so: what is told of one line after
    // another.
    fn plays<B: Bank + Drop, F: Fn(&mut String, &Line) -> Result<(), AllocError>>(
        rt: &impl Abort,
        heap: Global,
        bank: B,
        list: &[u8],
        tell: F,
        expected: &str,
    ) -> Result<(), Fail>
        requires { F.IsAlwaysCallable tell }
    {
        let mut pool = Pool::open(bank, Greedy, 1);
        let mut text = String::new(heap);
        for line in play(heap, &mut pool, list)?.iter() {
            tell(&mut text, line)?;
        }
        assert_eq!(rt; text.as_str(), expected);
        Ok(())
    }

    // It answers the commands so: one answer after another, each with a space after it.
    fn answers<B: Bank + Drop>(
        rt: &impl Abort,
        heap: Global,
        bank: B,
        commands: &[Command],
        expected: &str,
    ) -> Result<(), Fail> {
        let list = encode(heap, commands)?;
        let answer = |text: &mut String, line: &Line| write!(text, "{} ", line.outcome);
        plays(rt, heap, bank, list.as_slice(), answer, expected)
    }

    // It tells of a list of bytes so: one whole line after another.
    fn tells<B: Bank + Drop>(
        rt: &impl Abort,
        heap: Global,
        bank: B,
        list: &[u8],
        expected: &str,
    ) -> Result<(), Fail> {
        let whole = |text: &mut String, line: &Line| writeln!(text, "{line}");
        plays(rt, heap, bank, list, whole, expected)
    }

    // A list with a merge in it: a patch moves to another frame and keeps its address.
    const LISTING: [u8; 40] = [
        0x4E, 1, 2, 0, 0x4E, 2, 2, 0, 0x4E, 3, 2, 0, 0x57, 3, 0, 0, 0, 4, 0x21, 0x44, 1, 0x4D, 5,
        0x46, 0, 6, 0, 0x4E, 4, 2, 0, 0x52, 4, 0, 0, 0x43, 0x52, 1, 0, 0,
    ];

    #[test]
    fn listing_over_every_bank(rt: HostRuntime) -> Result<(), Fail> {
        let heap = rt.alloc();
        let lines =
            "0 N 512/1 1\n4 N 0/0 1\n8 N 1536/1 2\n12 W 4 2\n19 D 0 2\n21 M 1/512 1\n23 F 33 1\n27 N 2560/1 2\n31 R 0 2\n35 C 2/3/3 2\n36 R !1.10 2\n";
        let mut memory = [7; 8192];
        tells(&rt, heap, FlatBank::new(&mut memory), &LISTING, lines)?;
        let bank = Quota::new(FlatBank::new(&mut memory), 2);
        tells(&rt, heap, bank, &LISTING, lines)?;
        let mut first = [7; 1024];
        let mut second = [7; 1024];
        let bank = LaneBank::new(&mut first, &mut second);
        tells(&rt, heap, bank, &LISTING, lines)?;
        let bank = Quota::new(Quota::new(LaneBank::new(&mut first, &mut second), 2), 255);
        tells(&rt, heap, bank, &LISTING, lines)
    }

    #[test]
    fn listing_under_narrow_quotas(rt: HostRuntime) -> Result<(), Fail> {
        let heap = rt.alloc();
        let lines =
            "0 N 512/1 1\n4 N 0/0 1\n8 N !2.13 1\n12 W !1.10 1\n19 D 0 1\n21 M 0/0 1\n23 F !1.14 1\n27 N 512/0 1\n31 R 0 1\n35 C 1/1/2 1\n36 R !1.10 1\n";
        let mut memory = [7; 8192];
        let bank = Quota::new(FlatBank::new(&mut memory), 1);
        tells(&rt, heap, bank, &LISTING, lines)?;
        let mut first = [7; 1024];
        let mut second = [7; 1024];
        let bank = Quota::new(Quota::new(LaneBank::new(&mut first, &mut second), 1), 2);
        tells(&rt, heap, bank, &LISTING, lines)
    }

    #[test]
    fn faults_of_a_list(rt: HostRuntime) -> Result<(), Fail> {
        let heap = rt.alloc();
        let mut memory = [7; 1024];
        tells(&rt, heap, FlatBank::new(&mut memory), b"", "")?;
        tells(
            &rt,
            heap,
            FlatBank::new(&mut memory),
            b"CD\x01XC",
            "0 C 0/0/0 0\n1 D !1.10 0\n3 ? !0.4 0\n",
        )?;
        tells(
            &rt,
            heap,
            FlatBank::new(&mut memory),
            b"N\x01\x00\x01W\x01\x00\x00\x00\x01",
            "0 N 528/1 1\n4 ? !0.5 1\n",
        )
    }

    #[test]
    fn no_frames(rt: HostRuntime) -> Result<(), Fail> {
        let mut memory = [7; 1025];
        answers(
            &rt,
            rt.alloc(),
            FlatBank::new(&mut memory),
            &[
                Command::New(1, 0),
                Command::New(1, 1),
                Command::New(1, 512),
                Command::Mesh(0),
                Command::Count,
            ],
            "!1.1 !2.13 !2.13 0/0 0/0/0 ",
        )
    }

    #[test]
    fn lengths_and_edges(rt: HostRuntime) -> Result<(), Fail> {
        let heap = rt.alloc();
        let mut memory = [7; 8192];
        answers(
            &rt,
            heap,
            FlatBank::new(&mut memory),
            &[
                Command::New(1, 1),
                Command::New(2, 16),
                Command::New(3, 17),
                Command::New(4, 512),
                Command::New(5, 0),
                Command::New(5, 513),
                Command::New(5, 65535),
                Command::New(4, 0),
                Command::New(4, 512),
                Command::Write(4, 0, 512, 8),
                Command::Write(4, 0, 513, 9),
                Command::Write(4, 511, 1, 7),
                Command::Write(4, 511, 2, 9),
                Command::Write(4, 512, 0, 9),
                Command::Write(4, 512, 1, 9),
                Command::Write(4, 513, 0, 9),
                Command::Write(4, 65535, 65535, 9),
                Command::Write(9, 0, 513, 9),
                Command::Read(4, 0),
                Command::Read(4, 511),
                Command::Read(4, 512),
                Command::Read(9, 0),
                Command::Fetch(2560),
                Command::Fetch(3071),
                Command::Fetch(3072),
                Command::Fetch(2559),
                Command::Fetch(131071),
                Command::Fetch(131072),
                Command::Fetch(16777215),
                Command::Place(4),
                Command::Place(9),
                Command::Mesh(5),
                Command::Mesh(6),
                Command::Mesh(255),
                Command::Count,
            ],
            "528/1 496/0 1184/1 2560/1 !1.1 !1.1 !1.1 !1.1 !1.9 512 !1.11 1 !1.11 0 !1.11 !1.11 !1.11 !1.10 8 7 !1.11 !1.10 8 7 !1.14 !1.14 !1.14 !1.3 !1.3 2560 !1.10 0/0 !1.2 !1.2 3/3/4 ",
        )
    }

    #[test]
    fn deletes(rt: HostRuntime) -> Result<(), Fail> {
        let heap = rt.alloc();
        let mut memory = [7; 1024];
        answers(
            &rt,
            heap,
            FlatBank::new(&mut memory),
            &[
                Command::New(1, 512),
                Command::New(2, 512),
                Command::New(3, 512),
                Command::Write(1, 0, 512, 5),
                Command::Delete(1),
                Command::Read(1, 0),
                Command::Fetch(512),
                Command::Delete(1),
                Command::Count,
                Command::New(3, 300),
                Command::Read(3, 299),
                Command::Read(3, 300),
                Command::Delete(3),
                Command::Delete(2),
                Command::Count,
                Command::New(3, 16),
                Command::Count,
            ],
            "512/1 0/0 !2.13 512 0 !1.10 !1.14 !1.10 1/1/1 512/0 0 !1.11 0 1 0/0/0 240/1 1/1/1 ",
        )
    }

    #[test]
    fn merges(rt: HostRuntime) -> Result<(), Fail> {
        let heap = rt.alloc();
        let mut memory = [7; 8192];
        answers(
            &rt,
            heap,
            FlatBank::new(&mut memory),
            &[
                Command::New(1, 256),
                Command::New(2, 256),
                Command::New(3, 256),
                Command::New(4, 256),
                Command::New(5, 256),
                Command::New(6, 256),
                Command::New(7, 256),
                Command::New(8, 256),
                Command::New(9, 256),
                Command::New(10, 256),
                Command::New(11, 256),
                Command::New(12, 256),
                Command::Write(4, 0, 256, 44),
                Command::Write(5, 0, 256, 55),
                Command::Write(10, 0, 256, 66),
                Command::Write(11, 0, 256, 77),
                Command::Delete(1),
                Command::Delete(2),
                Command::Delete(3),
                Command::Delete(6),
                Command::Delete(7),
                Command::Delete(8),
                Command::Delete(9),
                Command::Delete(12),
                Command::Mesh(4),
                Command::Count,
                Command::Read(5, 255),
                Command::Fetch(1280),
                Command::New(20, 256),
                Command::Delete(20),
                Command::Delete(4),
                Command::Mesh(4),
                Command::Count,
                Command::Read(5, 0),
                Command::Fetch(1535),
                Command::Fetch(1536),
                Command::Place(5),
                Command::Read(10, 0),
                Command::Read(11, 255),
                Command::New(20, 256),
                Command::Read(20, 0),
                Command::Mesh(4),
                Command::Delete(10),
                Command::Delete(11),
                Command::Delete(20),
                Command::Count,
                Command::Delete(5),
                Command::Count,
                Command::Fetch(1280),
                Command::New(1, 256),
            ],
            "256/1 512/0 768/0 0/0 1280/1 1536/0 1024/0 1792/0 2304/1 2560/0 2816/0 2048/0 256 256 256 256 0 0 0 0 0 0 0 0 1/256 2/3/4 55 55 512/0 0 0 1/256 1/3/3 55 55 !1.14 1280 66 77 2048/0 0 0/0 0 0 0 1/3/1 1 0/0/0 !1.14 256/1 ",
        )
    }

    // What a fetch of so many bytes answers, of 17 at most.
    fn fetch<B: Bank, P>(pool: &mut Pool<B, P>, from: u32, count: usize) -> Result<(), Refusal> {
        let mut buffer = [0; 17];
        pool.fetch(from, &mut buffer[0..count.min(17)])
    }

    #[test]
    fn long_offsets_and_stretches(rt: HostRuntime) -> Result<(), Fail> {
        let mut memory = [7; 1024];
        let mut pool = Pool::open(FlatBank::new(&mut memory), Greedy, 1);
        assert_eq!(rt; pool.new(1, u32::MAX), Err(Refusal::Size));
        let address = pool.new(1, 16)?.address;
        assert_eq!(rt; address, 528);
        assert_eq!(rt; pool.write(1, u32::MAX, &[]), Err(Refusal::Past));
        assert_eq!(rt; pool.write(1, u32::MAX, &[9; 2]), Err(Refusal::Past));
        assert_eq!(rt; pool.write(1, 16, &[]), Ok(0));
        assert_eq!(rt; pool.write(1, 0, &[9; 16]), Ok(16));
        let mut buffer = [1u8; 17];
        assert_eq!(rt; pool.read(1, u32::MAX, &mut buffer), Err(Refusal::Past));
        assert_eq!(rt; pool.read(1, 0, &mut buffer), Err(Refusal::Past));
        assert_eq!(rt; pool.fetch(528, &mut buffer[0..16]), Ok(()));
        assert_eq!(rt; (buffer[0], buffer[15], buffer[16]), (9, 9, 1));
        // Where a stretch begins, how many bytes it has, and whether it lies in the patch.
        for (from, count, held) in [
            (528, 0, true),
            (528, 17, false),
            (527, 1, false),
            (543, 1, true),
            (543, 2, false),
            (544, 0, false),
            (131071, 0, false),
        ] {
            let answer = if held { Ok(()) } else { Err(Refusal::Stray) };
            assert_eq!(rt; fetch(&mut pool, from, count), answer);
        }
        assert_eq!(rt; fetch(&mut pool, 131072, 1), Err(Refusal::Address));
        assert_eq!(rt; fetch(&mut pool, u32::MAX, 0), Err(Refusal::Address));
        Ok(())
    }

    // Every second patch fills a frame, until no frame is spare.
    #[test]
    fn frames_run_out(rt: HostRuntime) -> Result<(), Fail> {
        let mut memory = [7; 65536];
        let mut pool = Pool::open(FlatBank::new(&mut memory), Greedy, 1);
        for label in 0..128u8 {
            assert_eq!(rt; pool.new(label, 512)?.opened, label % 2 == 0);
        }
        assert_eq!(rt; pool.new(128, 512), Err(Refusal::Frames));
        assert_eq!(rt; pool.new(128, 1), Err(Refusal::Frames));
        assert_eq!(rt; pool.new(127, 1), Err(Refusal::Taken));
        let full = Counts {
            frames: 64,
            spans: 64,
            labels: 128,
        };
        assert_eq!(rt; pool.count(), full);
        Ok(())
    }

    // A frame of two slots is full. Again and again a third patch opens a span, the patch at the same slot of the full
    // frame is deleted, and a merge fills the frame up: one more span is its alias, and it is never empty.
    #[test]
    fn spans_run_out(rt: HostRuntime) -> Result<(), Fail> {
        let mut memory = [7; 2048];
        let mut pool = Pool::open(FlatBank::new(&mut memory), Greedy, 1);
        let first = pool.new(1, 512)?.address;
        let second = pool.new(2, 512)?.address;
        assert_eq!(rt; (first, second), (512, 0));
        let mut labels = [2u8, 1];
        let mut spare = 3u8;
        for _ in 0..127 {
            let slot = (pool.new(spare, 512)?.address / 512 % 2) as usize;
            mem::swap(&mut labels[slot], &mut spare);
            assert_eq!(rt; pool.delete(spare), Ok(false));
            assert_eq!(rt; pool.mesh(5)?.merges, 1);
        }
        assert_eq!(rt; pool.new(spare, 512), Err(Refusal::Spans));
        let full = Counts {
            frames: 1,
            spans: 128,
            labels: 2,
        };
        assert_eq!(rt; pool.count(), full);
        assert_eq!(rt; pool.delete(labels[0]), Ok(false));
        assert_eq!(rt; pool.delete(labels[1]), Ok(true));
        let none = Counts {
            frames: 0,
            spans: 0,
            labels: 0,
        };
        assert_eq!(rt; pool.count(), none);
        Ok(())
    }
}
