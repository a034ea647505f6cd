// Tests of the text language: what a tester sees of a script or a capture that is at fault.
#![tactic(auto)]

#[cfg(test)]
mod tests {
    use capture::reader::Capture;
    use script::statement::parse;
    use std::test::Fail;

    fn fault_of(rt: &HostRuntime, text: &str) -> Result<String, Fail> {
        match parse(rt.alloc(), text) {
            Ok(_) => Err(Fail::new("the script is accepted")),
            Err(fault) => Ok(format!(in rt.alloc(); "{fault}")?),
        }
    }

    #[test]
    fn script_faults(rt: HostRuntime) -> Result<(), Fail> {
        let cases = [
            ("\n  kex 1 00 # no\n", "line 2: unknown statement 'kex'"),
            ("key", "line 1: the port is missing"),
            (
                "key 65536",
                "line 1: '65536' is no port: a decimal or 0x number of 16 bits",
            ),
            (
                "key +1",
                "line 1: '+1' is no port: a decimal or 0x number of 16 bits",
            ),
            (
                "key 1 000",
                "line 1: the frame has an odd number of hexadecimal digits, 3",
            ),
            (
                "key 1 00\nkey 1 00g0",
                "line 2: no hexadecimal digit in the frame, behind 2 digits",
            ),
            ("key 1 00 00", "line 1: '00' is one word too many"),
            ("keys 1 # x.pcap", "line 1: the capture's path is missing"),
        ];
        for (text, fault) in cases {
            assert_eq!(rt; fault_of(&rt, text)?.as_str(), fault);
        }
        Ok(())
    }

    #[test]
    fn rule_faults(rt: HostRuntime) -> Result<(), Fail> {
        let cases = [
            (
                "add table=4294967296 id=1",
                "line 1: 'table=4294967296': the table is no number of 32 bits",
            ),
            (
                "add table=0 id=1 ports=1,64",
                "line 1: 'ports=1,64': no list of ports from 0 to 63, and not none",
            ),
            (
                "add table=0 id=1 nw_ttl=256",
                "line 1: 'nw_ttl=256': no value of this field",
            ),
            (
                "add table=0 id=1 nw_src=10.0.0.0/33",
                "line 1: 'nw_src=10.0.0.0/33': no mask of this field",
            ),
            (
                "add table=0 id=1 id=1",
                "line 1: 'id=1': the name stands twice",
            ),
            ("remove id=1", "line 1: table= is missing"),
            (
                "count table=0 id=1 next=1",
                "line 1: 'next=1': no such name in this statement",
            ),
            (
                "totals\nswitch A linear",
                "line 2: a switch is set up behind the first call",
            ),
            ("switch C linear", "line 1: 'C' is no switch: A or B"),
            (
                "switch A tuple\nswitch B tree",
                "line 2: 'tree' is nothing that a switch is made of: linear or tuple",
            ),
            ("switch B", "line 1: what the switch is made of is missing"),
        ];
        for (text, fault) in cases {
            assert_eq!(rt; fault_of(&rt, text)?.as_str(), fault);
        }
        Ok(())
    }

    #[test]
    fn script_statements(rt: HostRuntime) -> Result<(), Fail> {
        let script = parse(rt.alloc(), "# none\n\nkey 0xFfFf aB\r\n\tkeys 7 x#y z\n")?;
        assert_eq!(rt; script.len(), 2);
        Ok(())
    }

    // The number of frames of a capture, or what is wrong with it.
    fn reading_of(rt: &HostRuntime, bytes: &[u8]) -> Result<String, Fail> {
        let mut input = bytes;
        let mut capture = match Capture::open(rt.alloc(), &mut input) {
            Ok(capture) => capture,
            Err(fault) => return Ok(format!(in rt.alloc(); "{fault}")?),
        };
        let mut len = 0;
        for _ in 0..10 {
            match capture.next_record(&mut input) {
                Ok(Some(record)) => len = record.frame.len(),
                Ok(None) => break,
                Err(fault) => return Ok(format!(in rt.alloc(); "{fault}")?),
            }
        }
        let records = capture.record();
        Ok(format!(in rt.alloc(); "{records} records, the last of {len} bytes")?)
    }

    fn little() -> [u8; 24] {
        *b"\xd4\xc3\xb2\xa1\x02\0\x04\0\0\0\0\0\0\0\0\0\0\0\x04\0\x01\0\0\0"
    }

    #[test]
    fn capture_headers(rt: HostRuntime) -> Result<(), Fail> {
        let little = little();
        assert_eq!(rt;
            reading_of(&rt, &little)?.as_str(),
            "0 records, the last of 0 bytes"
        );
        assert_eq!(rt;
            reading_of(&rt, &little[0..23])?.as_str(),
            "byte 0: the file ends after 23 bytes, its header takes 24"
        );
        let pcapng =
            b"\x0a\x0d\x0d\x0a\x1c\0\0\0\x4d\x3c\x2b\x1a\x01\0\0\0\xff\xff\xff\xff\xff\xff\xff\xff\x1c\0\0\0";
        assert_eq!(rt;
            reading_of(&rt, pcapng)?.as_str(),
            "byte 0: this is a pcapng file; write it as a pcap file first"
        );
        let wifi = b"\xa1\xb2\xc3\xd4\0\x02\0\x04\0\0\0\0\0\0\0\0\0\x04\0\0\0\0\0\x69";
        assert_eq!(rt;
            reading_of(&rt, wifi)?.as_str(),
            "byte 0: the capture has link type 105, only 1 (Ethernet) is read"
        );
        let other = b"GIF89a..................";
        assert_eq!(rt;
            reading_of(&rt, other)?.as_str(),
            "byte 0: no packet capture: the file begins with 0x47494638"
        );
        Ok(())
    }

    // Two records, of three bytes and of two; the second's length is at byte 51.
    fn records() -> [u8; 61] {
        *b"\xa1\xb2\x3c\x4d\0\x02\0\x04\0\0\0\0\0\0\0\0\0\x04\0\0\0\0\0\x01\
\0\0\0\0\0\0\0\0\0\0\0\x03\0\0\0\x03abc\0\0\0\0\0\0\0\0\0\0\0\x02\0\0\0\x09de"
    }

    #[test]
    fn capture_records(rt: HostRuntime) -> Result<(), Fail> {
        let mut file = records();
        assert_eq!(rt;
            reading_of(&rt, &file)?.as_str(),
            "2 records, the last of 2 bytes"
        );
        let cut = reading_of(&rt, &file[0..60])?;
        assert_eq!(rt;
            cut.as_str(),
            "record 2 at byte 43: the file ends after 1 of the frame's 2 bytes"
        );
        let cut = reading_of(&rt, &file[0..58])?;
        assert_eq!(rt;
            cut.as_str(),
            "record 2 at byte 43: the file ends after 15 of the header's 16 bytes"
        );
        file[52] = 4;
        let damaged = reading_of(&rt, &file)?;
        assert_eq!(rt;
            damaged.as_str(),
            "record 2 at byte 43: damaged: a length of 262146, at most 262144 is read"
        );
        Ok(())
    }
}
