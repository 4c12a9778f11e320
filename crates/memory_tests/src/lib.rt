// Tables of cases for the memories and the policies.
#![tactic(auto)]

#[cfg(test)]
mod kept;

#[cfg(test)]
mod tests {
    use memories::any::AnyMemory;
    use memories::flat::Flat;
    use memories::lanes::Lanes;
    use memory::Memory;
    use memory_example::pages::Pages;
    use policy::Policy;
    use policy::any::AnyPolicy;
    use policy::rights::Rights;
    use policy::rings::Rings;
    use std::process::Abort;
    use std::test::Fail;

    struct Read {
        address: u32,
        byte: Option<u8>,
        half: Option<u16>,
        word: Option<u32>,
    }

    // Of a memory that holds the eight bytes 1 to 8.
    static READS: [Read; 9] = [
        Read {
            address: 0,
            byte: Some(1),
            half: Some(0x0201),
            word: Some(0x0403_0201),
        },
        Read {
            address: 1,
            byte: Some(2),
            half: Some(0x0302),
            word: Some(0x0504_0302),
        },
        Read {
            address: 4,
            byte: Some(5),
            half: Some(0x0605),
            word: Some(0x0807_0605),
        },
        Read {
            address: 5,
            byte: Some(6),
            half: Some(0x0706),
            word: None,
        },
        Read {
            address: 6,
            byte: Some(7),
            half: Some(0x0807),
            word: None,
        },
        Read {
            address: 7,
            byte: Some(8),
            half: None,
            word: None,
        },
        Read {
            address: 8,
            byte: None,
            half: None,
            word: None,
        },
        Read {
            address: 0xffff_fffd,
            byte: None,
            half: None,
            word: None,
        },
        Read {
            address: 0xffff_ffff,
            byte: None,
            half: None,
            word: None,
        },
    ];

    fn reads<M: Memory>(rt: &impl Abort, memory: &M) {
        assert_eq!(rt; memory.size(), 8);
        for read in &READS {
            assert_eq!(rt; memory.read(read.address), read.byte);
            assert_eq!(rt; memory.read_half(read.address), read.half);
            assert_eq!(rt; memory.read_word(read.address), read.word);
        }
    }

    // Refused writes change nothing, and the others put the bytes 1 to 8 back.
    fn writes<M: Memory>(rt: &impl Abort, memory: &mut M) {
        assert!(rt; !memory.write(8, 9));
        assert!(rt; !memory.write_half(7, 9));
        assert!(rt; !memory.write_word(5, 9));
        assert!(rt; !memory.write_word(0xffff_ffff, 9));
        assert!(rt; memory.write_word(1, 0));
        assert!(rt; memory.write_word(1, 0x0504_0302));
        assert!(rt; memory.write_half(6, 0x0807));
        assert!(rt; memory.write(0, 1));
    }

    #[test]
    fn flat(rt: HostRuntime) {
        let mut buffer = [1, 2, 3, 4, 5, 6, 7, 8];
        let mut memory = Flat::new(&mut buffer);
        reads(&rt, &memory);
        writes(&rt, &mut memory);
        reads(&rt, &memory);
    }

    // The longer lanes keep what lies past the shortest.
    #[test]
    fn lanes(rt: HostRuntime) {
        let mut lane0 = [1, 5];
        let mut lane1 = [2, 6, 0xaa];
        let mut lane2 = [3, 7, 0xbb, 0xbb];
        let mut lane3 = [4, 8];
        let mut memory = Lanes {
            lane0: &mut lane0,
            lane1: &mut lane1,
            lane2: &mut lane2,
            lane3: &mut lane3,
        };
        reads(&rt, &memory);
        writes(&rt, &mut memory);
        reads(&rt, &memory);
        assert_eq!(rt; lane1, [2, 6, 0xaa]);
        assert_eq!(rt; lane2, [3, 7, 0xbb, 0xbb]);
    }

    #[test]
    fn store(rt: HostRuntime) {
        let mut buffer = [1, 2, 3, 4, 5, 6, 7, 8];
        let mut memory = AnyMemory::Flat(Flat::new(&mut buffer));
        reads(&rt, &memory);
        writes(&rt, &mut memory);
        reads(&rt, &memory);
    }

    #[test]
    fn limit(rt: HostRuntime) -> Result<(), Fail> {
        let mut buffer = vec![in rt.alloc(); 0; 1_048_580]?;
        let mut memory = Flat::new(buffer.as_mut_slice());
        assert_eq!(rt; memory.size(), 1_048_576);
        assert!(rt; !memory.write(1_048_576, 1));
        assert!(rt; !memory.write_word(1_048_573, 1));
        assert!(rt; memory.write_word(1_048_572, 0x0403_0201));
        assert_eq!(rt; memory.read(1_048_575), Some(4));
        Ok(())
    }

    #[test]
    fn pages(rt: HostRuntime) {
        let mut memory = Pages::new();
        assert_eq!(rt; memory.read_word(60), Some(0));
        assert!(rt; memory.write_word(14, 0x0403_0201));
        assert_eq!(rt; memory.read(15), Some(2));
        assert_eq!(rt; memory.read(16), Some(3));
        assert_eq!(rt; memory.read_half(17), Some(4));
        assert!(rt; !memory.write_word(61, 1));
        assert_eq!(rt; memory.read(64), None);
    }

    struct Asked {
        domain: usize,
        gate: u32,
        rights: bool,
        rings: bool,
    }

    // Domain 1 holds the rights 0, 5 and 31, and ring 1; gates 0 to 3 have the rings 0, 1, 2 and 200, the others ring 0.
    static ASKED: [Asked; 10] = [
        Asked {
            domain: 1,
            gate: 0,
            rights: true,
            rings: false,
        },
        Asked {
            domain: 1,
            gate: 1,
            rights: false,
            rings: true,
        },
        Asked {
            domain: 1,
            gate: 2,
            rights: false,
            rings: true,
        },
        Asked {
            domain: 1,
            gate: 3,
            rights: false,
            rings: true,
        },
        Asked {
            domain: 1,
            gate: 5,
            rights: true,
            rings: false,
        },
        Asked {
            domain: 1,
            gate: 31,
            rights: true,
            rings: false,
        },
        Asked {
            domain: 1,
            gate: 32,
            rights: false,
            rings: false,
        },
        Asked {
            domain: 1,
            gate: 0xffff_ffff,
            rights: false,
            rings: false,
        },
        Asked {
            domain: 7,
            gate: 3,
            rights: true,
            rings: true,
        },
        Asked {
            domain: 8,
            gate: 3,
            rights: false,
            rings: false,
        },
    ];

    #[test]
    fn policies(rt: HostRuntime) {
        let mut gates = [0; 32];
        gates[1] = 1;
        gates[2] = 2;
        gates[3] = 200;
        let rights = Rights {
            rows: [0, 0x8000_0021, 0, 0, 0, 0, 0, 8],
        };
        let rings = Rings {
            domains: [0, 1, 2, 3, 4, 5, 6, 255],
            gates,
        };
        let rule = AnyPolicy::Rings(rings);
        for asked in &ASKED {
            assert_eq!(rt; rights.allows(asked.domain, asked.gate), asked.rights);
            assert_eq!(rt; rings.allows(asked.domain, asked.gate), asked.rings);
            assert_eq!(rt; rule.allows(asked.domain, asked.gate), asked.rings);
        }
    }
}
