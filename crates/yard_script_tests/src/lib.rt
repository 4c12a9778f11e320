// Scripts that are not run, and why. It stands beside `script_tests` as `yard_script` does beside `script`.
#![tactic(auto)]

#[cfg(test)]
mod tests {
    use std::alloc::Global;
    use std::process::Abort;
    use std::test::Fail;

    fn accepts(rt: &impl Abort, heap: Global, text: &str) {
        assert!(rt; yard_script::read(heap, text).is_ok(), "{text}");
    }

    // The fault is given as it is printed.
    fn refuses(rt: &impl Abort, heap: Global, text: &str, expected: &str) -> Result<(), Fail> {
        let Err(fault) = yard_script::read(heap, text) else {
            panic!(rt; "{text} has no fault");
        };
        assert!(rt; fault.to_string(heap)?.as_str() == expected, "{text}");
        Ok(())
    }

    #[test]
    fn sound_scripts(rt: HostRuntime) {
        let heap = rt.alloc();
        for text in [
            "",
            "\n  \t\n# only a comment\n",
            "decode 4294967295 # the largest",
            "  decode\t0xFFFFFFFF",
            "encode addi   x1,x0,-1\nencode ecall",
        ] {
            accepts(&rt, heap, text);
        }
    }

    #[test]
    fn commands_and_words(rt: HostRuntime) -> Result<(), Fail> {
        let heap = rt.alloc();
        let command = "line 2: there is no such command";
        let words = "line 1: the command has another number of words";
        for (text, expected) in [
            ("decode 0\nobey 0", command),
            ("\nDecode 0", command),
            ("decode", words),
            ("decode 0 1", words),
            ("encode", words),
            ("encode addi x1,x0,-1 x2", words),
            ("memory", words),
            ("memory lanes 1 2 3", words),
            ("memory lanes 1 2 3 4 5", words),
            ("\nmemory round 4", command),
            ("rights 1 2 3 4 5 6 7", words),
            ("rings 1 2 3 4 5 6 7 8", words),
            ("may 1", words),
            ("code", words),
            ("code-file", words),
            ("check 0", words),
        ] {
            refuses(&rt, heap, text, expected)?;
        }
        Ok(())
    }

    #[test]
    fn numbers(rt: HostRuntime) -> Result<(), Fail> {
        let heap = rt.alloc();
        let number = "line 1: this is no number of at most 32 bits";
        for text in [
            "decode 4294967296",
            "decode 0x100000000",
            "decode 0x",
            "decode 0xfg",
            "decode ff",
            "decode -1",
            "decode +1",
            "decode 0x+1",
            "code 1 2 x",
            "peek 0 -1",
        ] {
            refuses(&rt, heap, text, number)?;
        }
        Ok(())
    }

    #[test]
    fn texts(rt: HostRuntime) -> Result<(), Fail> {
        let heap = rt.alloc();
        let instruction = "line 1: this is the text of no instruction";
        for text in [
            "encode mul x1,x2,x3",
            "encode ADDI x1,x0,-1",
            "encode addi x1,x0",
            "encode addi x01,x0,-1",
            "encode addi x1,x0,0x1",
            "encode lui x1,0x100000",
            "encode li x1,-1",
            "encode ecall x0",
        ] {
            refuses(&rt, heap, text, instruction)?;
        }
        Ok(())
    }

    #[test]
    fn yards(rt: HostRuntime) -> Result<(), Fail> {
        let heap = rt.alloc();
        let words = "line 1: the command has another number of words";
        let number = "line 1: this is no number of at most 32 bits";
        for text in [
            "yard 8192\nopen 1 0 0\nrun 10\nreply 1\ncut\nregister 0 11",
            "call 1\ncall 1 1 2 3 4 5 6 7",
        ] {
            accepts(&rt, heap, text);
        }
        for (text, expected) in [
            ("call 1 1 2 3 4 5 6 7 8", words),
            ("call", words),
            ("yard", words),
            ("open 1 0", words),
            ("run 10 10", words),
            ("reply", words),
            ("cut 0", words),
            ("register 0", words),
            ("call 1 x", number),
        ] {
            refuses(&rt, heap, text, expected)?;
        }
        Ok(())
    }

    #[test]
    fn registers(rt: HostRuntime) -> Result<(), Fail> {
        let heap = rt.alloc();
        let words = "line 1: the command has another number of words";
        let register = "line 1: this sets no register";
        accepts(
            &rt,
            heap,
            "admit 0 6 0 12\nadmit 0 6 0 12 x0=1 x31=0xffffffff",
        );
        for (text, expected) in [
            ("admit 0 6 0", words),
            ("admit 0 6 0 12 7", register),
            ("admit 0 6 0 12 x1=2 x32=1", register),
            ("admit 0 6 0 12 x1", register),
            ("admit 0 6 0 12 1=1", register),
            ("admit 0 6 0 12 x=1", register),
            ("admit 0 6 0 12 x+1=1", register),
            ("admit 0 6 0 12 x0x1=1", register),
            ("admit 0 6 0 12 x1=", register),
            ("admit 0 6 0 12 x1=4294967296", register),
        ] {
            refuses(&rt, heap, text, expected)?;
        }
        Ok(())
    }

    #[test]
    fn code_under_a_yard(rt: HostRuntime) -> Result<(), Fail> {
        let heap = rt.alloc();
        accepts(&rt, heap, "code 1\nyard 0\nyard 4");
        for (text, expected) in [
            ("yard 0\ncode 1", "line 2: the code store is under a yard"),
            (
                "yard 0\n\ncode-file a",
                "line 3: the code store is under a yard",
            ),
            (
                "yard 0\ncode x",
                "line 2: this is no number of at most 32 bits",
            ),
        ] {
            refuses(&rt, heap, text, expected)?;
        }
        Ok(())
    }
}
