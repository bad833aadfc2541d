// Each text beside its words, by hand from the rules.
use crate::listing;
use std::alloc::Global;
use std::io;
use std::test::Fail;

// Where the first case stands that is listed otherwise, if there is one.
fn first_other(heap: Global, cases: &[(&[u8], &[u8])]) -> io::Result<Option<usize>> {
    for (i, case) in cases.iter().enumerate() {
        let listed = listing(heap, case.0)?;
        if listed.as_slice() != case.1 {
            return Ok(Some(i));
        }
    }
    Ok(None)
}

const MARKS: &[(&[u8], &[u8])] = &[
    (b"", b"0 end"),
    (b"<", b"0 <|1 end"),
    (b">", b"0 >|1 end"),
    (b":", b"0 :|1 end"),
    (b"=", b"0 stray|1 end"),
    (b"==", b"0 ==|2 end"),
    (b"===", b"0 ==|2 stray|3 end"),
    (b"= =", b"0 stray|2 stray|3 end"),
    (b".", b"0 .|1 end"),
    (b"\"", b"0 \"|1 end"),
    (b"(", b"0 (|1 end"),
    (b")", b"0 )|1 end"),
    (b"#", b"0 stray|1 end"),
    (b"$", b"0 stray|1 end"),
    (b"{", b"0 stray|1 end"),
    (b"}", b"0 stray|1 end"),
    (b"\t\n\r <", b"4 <|5 end"),
    (b"< >", b"0 <|2 >|3 end"),
];

const COMMENTS: &[(&[u8], &[u8])] = &[
    (b"%", b"1 end"),
    (b"% to the end", b"12 end"),
    (b"%a\n<", b"3 <|4 end"),
    (b"%a\r<", b"4 end"),
    (b"%%\n%\n.", b"5 .|6 end"),
    (b"%\x00\x7f'\n.", b"5 .|6 end"),
    (b"a%b\nc", b"0 atom a|4 atom c|5 end"),
    (b"'%'", b"0 atom %|3 end"),
];

const NAMES: &[(&[u8], &[u8])] = &[
    (b"a", b"0 atom a|1 end"),
    (b"A", b"0 node A|1 end"),
    (b"Z9", b"0 node Z9|2 end"),
    (b"aB", b"0 atom aB|2 end"),
    (b"@A", b"0 atom @A|2 end"),
    (b"[", b"0 atom [|1 end"),
    (b"a+b", b"0 atom a+b|3 end"),
    (
        b"Word:<many>",
        b"0 node Word|4 :|5 <|6 atom many|10 >|11 end",
    ),
    (b"\x80", b"0 atom \x80|1 end"),
    (b"\xff", b"0 atom \xff|1 end"),
    (b"'a'", b"0 atom a|3 end"),
    (b"'A'", b"0 atom A|3 end"),
    (b"'a''b'", b"0 atom a|3 atom b|6 end"),
    (b"a'b'c", b"0 atom a|1 atom b|4 atom c|5 end"),
    (b"'< >:=.\"%()#${}'", b"0 atom < >:=.\"%()#${}|16 end"),
    (b"'\x80\xff'", b"0 atom \x80\xff|4 end"),
    (
        b"aaaaaaaaaabbbbbbbbbbccccccccccdd",
        b"0 atom aaaaaaaaaabbbbbbbbbbccccccccccdd|32 end",
    ),
    (
        b"'aaaaaaaaaabbbbbbbbbbccccccccccdd'",
        b"0 atom aaaaaaaaaabbbbbbbbbbccccccccccdd|34 end",
    ),
    (
        b"Aaaaaaaaaabbbbbbbbbbccccccccccdd.",
        b"0 node Aaaaaaaaaabbbbbbbbbbccccccccccdd|32 .|33 end",
    ),
];

const FAULTS: &[(&[u8], &[u8])] = &[
    (b"\x00", b"0 fault 1"),
    (b"\x1f", b"0 fault 1"),
    (b"\x7f", b"0 fault 1"),
    (b"\x0b", b"0 fault 1"),
    (b"a\x7f", b"0 atom a|1 fault 1"),
    (b"<a> \x01 b", b"0 <|1 atom a|2 >|4 fault 1"),
    (b"'", b"0 fault 2"),
    (b"'a", b"0 fault 2"),
    (b"'a\n'", b"0 fault 2"),
    (b"'a\x7f'", b"0 fault 2"),
    (b"'a\tb'", b"0 fault 2"),
    (b"b 'a", b"0 atom b|2 fault 2"),
    (b"'aaaaaaaaaabbbbbbbbbbccccccccccddd", b"0 fault 2"),
    (b"''", b"0 fault 3"),
    (b"a ''", b"0 atom a|2 fault 3"),
    (b"aaaaaaaaaabbbbbbbbbbccccccccccddd", b"0 fault 3"),
    (b"< Aaaaaaaaaabbbbbbbbbbccccccccccddd", b"0 <|2 fault 3"),
    (b"'aaaaaaaaaabbbbbbbbbbccccccccccddd'", b"0 fault 3"),
];

// Kept: each table is a test, whose name says what failed.
#[test]
fn marks(rt: HostRuntime) -> Result<(), Fail> {
    assert_eq!(rt; first_other(rt.alloc(), MARKS)?, None);
    Ok(())
}

#[test]
fn comments(rt: HostRuntime) -> Result<(), Fail> {
    assert_eq!(rt; first_other(rt.alloc(), COMMENTS)?, None);
    Ok(())
}

#[test]
fn names(rt: HostRuntime) -> Result<(), Fail> {
    assert_eq!(rt; first_other(rt.alloc(), NAMES)?, None);
    Ok(())
}

#[test]
fn faults(rt: HostRuntime) -> Result<(), Fail> {
    assert_eq!(rt; first_other(rt.alloc(), FAULTS)?, None);
    Ok(())
}
