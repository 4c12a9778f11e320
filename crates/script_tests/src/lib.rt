// Scripts that are not run, and why.
#![tactic(auto)]

#[cfg(test)]
mod tests {
    use std::alloc::Global;
    use std::process::Abort;
    use std::test::Fail;

    fn accepts(rt: &impl Abort, heap: Global, text: &str) {
        assert!(rt; script::read(heap, text).is_ok(), "{text}");
    }

    // The fault is given as it is printed.
    fn refuses(rt: &impl Abort, heap: Global, text: &str, expected: &str) -> Result<(), Fail> {
        let Err(fault) = script::read(heap, text) else {
            panic!(rt; "{text} has no fault");
        };
        assert!(rt; fault.to_string(heap)?.as_str() == expected, "{text}");
        Ok(())
    }

    #[test]
    fn sound_scripts(rt: HostRuntime) {
        let heap = rt.alloc();
        for text in [
            "",
            "\n  \t\n# only a comment\n",
            "decode 4294967295 # the largest",
            "  decode\t0xFFFFFFFF",
            "encode addi   x1,x0,-1\nencode ecall",
        ] {
            accepts(&rt, heap, text);
        }
    }

    #[test]
    fn commands_and_words(rt: HostRuntime) -> Result<(), Fail> {
        let heap = rt.alloc();
        let command = "line 2: there is no such command";
        let words = "line 1: the command has another number of words";
        for (text, expected) in [
            ("decode 0\nobey 0", command),
            ("\nDecode 0", command),
            ("decode", words),
            ("decode 0 1", words),
            ("encode", words),
            ("encode addi x1,x0,-1 x2", words),
            ("memory", words),
            ("memory lanes 1 2 3", words),
            ("memory lanes 1 2 3 4 5", words),
            ("\nmemory round 4", command),
            ("rights 1 2 3 4 5 6 7", words),
            ("rings 1 2 3 4 5 6 7 8", words),
            ("may 1", words),
            ("code", words),
            ("code-file", words),
            ("check 0", words),
        ] {
            refuses(&rt, heap, text, expected)?;
        }
        Ok(())
    }

    #[test]
    fn numbers(rt: HostRuntime) -> Result<(), Fail> {
        let heap = rt.alloc();
        let number = "line 1: this is no number of at most 32 bits";
        for text in [
            "decode 4294967296",
            "decode 0x100000000",
            "decode 0x",
            "decode 0xfg",
            "decode ff",
            "decode -1",
            "decode +1",
            "decode 0x+1",
            "code 1 2 x",
            "peek 0 -1",
        ] {
            refuses(&rt, heap, text, number)?;
        }
        Ok(())
    }

    #[test]
    fn texts(rt: HostRuntime) -> Result<(), Fail> {
        let heap = rt.alloc();
        let instruction = "line 1: this is the text of no instruction";
        for text in [
            "encode mul x1,x2,x3",
            "encode ADDI x1,x0,-1",
            "encode addi x1,x0",
            "encode addi x01,x0,-1",
            "encode addi x1,x0,0x1",
            "encode lui x1,0x100000",
            "encode li x1,-1",
            "encode ecall x0",
        ] {
            refuses(&rt, heap, text, instruction)?;
        }
        Ok(())
    }
}
