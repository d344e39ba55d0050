// Strike sheets at their edges: a table at the end of memory and one a word short of it, an equal pair, FFFFh as a true tick, a single
// stroke, all 29 strokes of rule 1 and all 32 of rule 2, both rules with quarters and without, and each refusal. Each sheet prints its
// answer, the pointer and HSTDATA that it leaves, and then the list of times.
// The stored output was worked out by hand from document 02, requests (viii) and (ix).
// What standard output doesn't take is let go (`let _`): nothing is said of it, and the runs go on.
#![tactic(auto)]

mod longest;
mod printing;
mod striking;

use longest::run_longest;
use striking::{Case, QUARTER_TO_FOUR, at, strike_each, table_of_six, tables, two_tables};

fn run_passing(rt: &impl Print) {
    let cases = [
        Case {
            title: "3:45, a table that ends with the memory's last word",
            table: 0x140,
            ..QUARTER_TO_FOUR
        },
        Case {
            title: "the same with LBL 1",
            control: 0x3000,
            table: 0x140,
            ..QUARTER_TO_FOUR
        },
        Case {
            title: "2:15, a table that ends with a true FFFFh",
            table: 0xe0,
            time: at(2, 1, 0),
            ..QUARTER_TO_FOUR
        },
        Case {
            title: "1:00, a single stroke",
            table: 0x120,
            time: at(1, 0, 0),
            ..QUARTER_TO_FOUR
        },
        Case {
            title: "the same, from an address inside its word",
            table: 0x12f,
            time: at(1, 0, 0),
            ..QUARTER_TO_FOUR
        },
    ];
    strike_each(rt, &mut tables(), 8, &cases);
}

fn run_both_rules(rt: &impl Print) {
    let cases = [
        Case {
            title: "3:45 by rule 1, six strokes",
            table: 0xa0,
            ..QUARTER_TO_FOUR
        },
        Case {
            title: "3:45 by rule 2, nine strokes",
            rule: 2,
            ..QUARTER_TO_FOUR
        },
        Case {
            title: "3:45 by rule 2, the table of six",
            table: 0xa0,
            rule: 2,
            ..QUARTER_TO_FOUR
        },
        Case {
            title: "3:45 by rule 1, the table of nine",
            ..QUARTER_TO_FOUR
        },
    ];
    strike_each(rt, &mut two_tables(), 9, &cases);
}

fn run_no_quarters(rt: &impl Print) {
    let cases = [
        Case {
            title: "5:01 by rule 1, no quarters",
            table: 0xa0,
            time: at(5, 0, 1),
            ..QUARTER_TO_FOUR
        },
        Case {
            title: "5:01 by rule 2, no quarters",
            table: 0xa0,
            rule: 2,
            time: at(5, 0, 1),
            ..QUARTER_TO_FOUR
        },
        Case {
            title: "5:01 by rule 1, the table of nine",
            time: at(5, 0, 1),
            ..QUARTER_TO_FOUR
        },
        Case {
            title: "5:01 by rule 2, the table of nine",
            rule: 2,
            time: at(5, 0, 1),
            ..QUARTER_TO_FOUR
        },
    ];
    strike_each(rt, &mut two_tables(), 9, &cases);
}

fn run_too_long(rt: &impl Print) {
    let cases = [
        Case {
            title: "32,769 words",
            ..QUARTER_TO_FOUR
        },
        Case {
            title: "32,769 words, rule 3",
            rule: 3,
            ..QUARTER_TO_FOUR
        },
    ];
    strike_each(rt, &mut [0u16; 32769], 6, &cases);
}

fn run_unknown_rules(rt: &impl Print) {
    let cases = [
        Case {
            title: "rule 0",
            table: 0xa0,
            rule: 0,
            ..QUARTER_TO_FOUR
        },
        Case {
            title: "rule 3",
            table: 0xa0,
            rule: 3,
            ..QUARTER_TO_FOUR
        },
        Case {
            title: "rule 65,537",
            table: 0xa0,
            rule: 65537,
            ..QUARTER_TO_FOUR
        },
        Case {
            title: "rule 3, no hours",
            table: 0xa0,
            rule: 3,
            time: at(0, 3, 3),
            ..QUARTER_TO_FOUR
        },
    ];
    strike_each(rt, &mut two_tables(), 9, &cases);
}

fn run_out_of_range(rt: &impl Print) {
    let cases = [
        Case {
            title: "no hours",
            time: at(0, 3, 3),
            ..QUARTER_TO_FOUR
        },
        Case {
            title: "13 hours",
            time: at(13, 0, 0),
            ..QUARTER_TO_FOUR
        },
        Case {
            title: "four quarters",
            time: at(2, 4, 0),
            ..QUARTER_TO_FOUR
        },
        Case {
            title: "15 minutes",
            time: at(1, 0, 15),
            ..QUARTER_TO_FOUR
        },
    ];
    strike_each(rt, &mut table_of_six(), 6, &cases);
}

fn run_no_room(rt: &impl Print) {
    let cases = [Case {
        title: "a list one place short",
        ..QUARTER_TO_FOUR
    }];
    strike_each(rt, &mut tables(), 5, &cases);
}

fn run_standing_still(rt: &impl Print) {
    let cases = [Case {
        title: "INCR not set",
        control: 0x0800,
        ..QUARTER_TO_FOUR
    }];
    strike_each(rt, &mut table_of_six(), 6, &cases);
}

fn run_refused_after(rt: &impl Print) {
    let cases = [
        Case {
            title: "a table beyond memory",
            table: 0x1b0,
            ..QUARTER_TO_FOUR
        },
        Case {
            title: "a table at the top of the pointer's range",
            table: 0xfffffff0,
            ..QUARTER_TO_FOUR
        },
        Case {
            title: "a count of six for 3:30",
            time: at(3, 2, 0),
            ..QUARTER_TO_FOUR
        },
    ];
    strike_each(rt, &mut tables(), 8, &cases);
}

// The last word is not lent.
fn run_short(rt: &impl Print) {
    let cases = [Case {
        title: "3:45, a word short",
        table: 0x140,
        ..QUARTER_TO_FOUR
    }];
    strike_each(rt, &mut tables()[..26], 8, &cases);
}

fn run_equal_pair(rt: &impl Print) {
    let cases = [Case {
        title: "3:45, an equal pair",
        table: 0x70,
        ..QUARTER_TO_FOUR
    }];
    strike_each(rt, &mut tables(), 8, &cases);
}

fn main(rt: HostRuntime) {
    run_passing(&rt);
    run_longest(&rt);
    run_both_rules(&rt);
    run_no_quarters(&rt);
    run_too_long(&rt);
    run_unknown_rules(&rt);
    run_out_of_range(&rt);
    run_no_room(&rt);
    run_standing_still(&rt);
    run_refused_after(&rt);
    run_short(&rt);
    run_equal_pair(&rt);
}
