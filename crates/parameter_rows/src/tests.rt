// Rows of three returns: the usual spelling and the others, and each question that a row can fail.
use super::returns_row;

// The question that a row fails, or 0 where it passes.
fn question(text: &[u8]) -> u32 {
    let mut row = [0; 3];
    match returns_row(text, &mut row) {
        Ok(_) => 0,
        Err(q) => q.number(),
    }
}

// Where the line after a row starts, or 0 where it fails.
fn next(text: &[u8], row: &mut [i32]) -> usize {
    match returns_row(text, row) {
        Ok(next) => next,
        Err(_) => 0,
    }
}

#[test]
fn usual_spelling(rt: HostRuntime) {
    let mut row = [0; 3];
    assert_eq!(rt;
        next(b"0.01,-1.5,2,,\r\n-0.25,0.12345678,3\n0,0,0\n", &mut row),
        15
    );
    assert_eq!(rt; row, [1_000_000, -150_000_000, 200_000_000]);
    assert_eq!(rt; next(b"-0.25,0.12345678,3\n0,0,0\n", &mut row), 19);
    assert_eq!(rt; row, [-25_000_000, 12_345_678, 300_000_000]);
}

#[test]
fn other_spellings(rt: HostRuntime) {
    let mut row = [1; 3];
    assert_eq!(rt; next(b"00.5,0.1234567800,-0", &mut row), 20);
    assert_eq!(rt; row, [50_000_000, 12_345_678, 0]);
    assert_eq!(rt; question(b"4,-4.0000000000,0004\r\n"), 0);
}

#[test]
fn questions_in_their_order(rt: HostRuntime) {
    assert_eq!(rt; question(b"0,0\n0"), 4, "a cell is missing");
    assert_eq!(rt; question(b"0,x,0,,5\n"), 4, "a spare cell is not empty");
    assert_eq!(rt; question(b"0,,0\n"), 5, "a cell is empty");
    assert_eq!(rt;
        question(b"9,0,1.\n"),
        5,
        "a form is asked before any range"
    );
    assert_eq!(rt; question(b"4.00000001,0,0,,,,,,\n"), 6, "beyond 4");
    assert_eq!(rt; question(b"0,0.123456789,0"), 6, "a ninth place");
}
