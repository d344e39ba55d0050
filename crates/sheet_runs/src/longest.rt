// The longest time, by both rules.
use crate::striking::{Case, QUARTER_TO_FOUR, at, strike_each};

// 12:59 on rule 1's table, into a list of 30 places: the ticks go up one by one, and the last leaps to 1,035.
fn run_longest_by_rule_one(rt: &impl Print) {
    let mut memory = [
        29, 1000, 1001, 1002, 1003, 1004, 1005, 1006, 1007, 1008, 1009, 1010, 1011, 1012, 1013,
        1014, 1015, 1016, 1017, 1018, 1019, 1020, 1021, 1022, 1023, 1024, 1025, 1026, 1027, 1035,
    ];
    let by_rule_one = Case {
        title: "12:59, all 29 strokes",
        time: at(12, 3, 14),
        ..QUARTER_TO_FOUR
    };
    let by_rule_two = Case {
        title: "the same by rule 2, whose 32 strokes are more than the list's 30 places",
        rule: 2,
        ..by_rule_one
    };
    strike_each(rt, &mut memory, 30, &[by_rule_one, by_rule_two]);
}

// 12:59 on rule 2's table: the ticks go up one by one, and the last leaps to 2,062.
fn run_longest_by_rule_two(rt: &impl Print) {
    let mut memory = [
        32, 2000, 2001, 2002, 2003, 2004, 2005, 2006, 2007, 2008, 2009, 2010, 2011, 2012, 2013,
        2014, 2015, 2016, 2017, 2018, 2019, 2020, 2021, 2022, 2023, 2024, 2025, 2026, 2027, 2028,
        2029, 2030, 2062,
    ];
    let case = Case {
        title: "12:59 by rule 2, all 32 strokes",
        rule: 2,
        time: at(12, 3, 14),
        ..QUARTER_TO_FOUR
    };
    strike_each(rt, &mut memory, 33, &[case]);
}

pub(crate) fn run_longest(rt: &impl Print) {
    run_longest_by_rule_one(rt);
    run_longest_by_rule_two(rt);
}
