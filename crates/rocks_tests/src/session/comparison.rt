//! The command `compare` over objects in memory.

use super::{calls, device, hello, runs, words};
use rocks_session::{WordsFault, read_words};

const COMPARED: [(&str, &str); 5] = [
    ("--tree T compare 2.0rc1-1 2.0-1", "2.0rc1-1 < 2.0-1\nok\n"),
    ("--tree T compare 1.0 1.0.0", "1.0 = 1.0.0\nok\n"),
    ("--tree T compare scm-1 99.0-1", "scm-1 > 99.0-1\nok\n"),
    ("--tree T compare 1.0-2 1.0-10", "1.0-2 < 1.0-10\nok\n"),
    ("--tree T --from S compare 1.0-1 1.0", "1.0-1 = 1.0\nok\n"),
];

#[test]
fn how_two_versions_compare_is_told(rt: HostRuntime) {
    for (line, reply) in &COMPARED {
        let mut shelf = hello(&rt);
        let mut device = device(&rt);
        runs(&rt, &mut device, &mut shelf, line, 0, reply);
        assert!(rt; device.clock() == 1, "{line}");
    }
}

#[test]
fn a_comparison_touches_no_file(rt: HostRuntime) {
    calls(&rt, "--tree T --from S compare 1 2", &["list", "say"]);
}

const FAULTY: [(&str, u32); 7] = [
    ("--tree T compare", 1),
    ("--tree T compare 1.1234567890123456789 1", 1),
    ("--tree T compare _1 1", 1),
    ("--tree T compare 1", 2),
    ("--tree T compare 1 1+1", 2),
    ("--tree T compare 1 2 3", 3),
    ("--tree T comparing 1 2", 0),
];

#[test]
fn a_word_that_fits_no_comparison_is_told_by_its_number(rt: HostRuntime) {
    for (line, which) in &FAULTY {
        let words = words(&rt, line);
        let fault = read_words(rt.alloc(), &words).err().expect(&rt, line);
        assert!(rt; fault == WordsFault::BadWords { which: *which }, "{line}");
    }
}
