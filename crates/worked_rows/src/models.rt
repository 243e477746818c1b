//! These are the models of the rows.

/// State 0 stays with one half, and goes to the goal and to a trap with a quarter each.
pub const COIN_LOOP: &str = "3 3 5\n0 0 0 0.5\n0 0 1 0.25\n0 0 2 0.25\n1 0 1 1\n2 0 2 1\n";

/// State 0 is asked about, and state 1 is the goal.
pub const GOAL_AT_1: &str = "0=\"init\" 1=\"goal\"\n0: 0\n1: 1\n";

/// State 0 chooses between the goal and a trap.
pub const FORK: &str = "3 4 4\n0 0 1 1\n0 1 2 1\n1 0 1 1\n2 0 2 1\n";

/// There are two players and four states. State 0 is the first player's, and state 1 is the second's.
pub const TWO_PLAYERS: &str =
    "4 6 9\n0 0 1 1\n0 1 2 0.65\n0 1 3 0.35\n1 0 2 0.5\n1 0 3 0.5\n1 1 2 0.2\n1 1 3 0.8\n2 0 2 1\n3 0 3 1\n";

/// State 0 is asked about, and state 2 is the goal.
pub const GOAL_AT_2: &str = "0=\"init\" 1=\"goal\"\n0: 0\n2: 1\n";

/// The second player owns state 1.
pub const SECOND_OWNS_1: &str = "0=\"p1\" 1=\"p2\"\n1: 1\n";

/// This is a randomised agreement protocol of two players.
pub const AGREEMENT: &str =
    "12 15 20\n0 0 1 0.33333333333333331 ask\n0 0 2 0.33333333333333331 ask\n0 0 3 0.33333333333333331 ask\n0 1 9 1 quit\n1 0 6 1 yes\n1 1 5 1 no\n2 0 10 0.10000000000000001 drop\n2 0 7 0.90000000000000002 drop\n3 0 0 0.5 retry\n3 0 4 0.5 retry\n4 0 11 1 fin\n5 0 4 0.69999999999999996 push\n5 0 10 0.30000000000000004 push\n6 0 4 1 send\n7 0 8 1 send\n8 0 4 1 ack\n9 0 9 1 stall\n9 1 4 1 go\n10 0 10 1 end\n11 0 11 1 end\n";

pub const AGREEMENT_LABELS: &str =
    "0=\"init\" 1=\"deadlock\" 2=\"ok\" 3=\"done\"\n0: 0 2\n1: 2\n2: 2\n3: 2\n4: 2\n5: 2\n6: 2\n7: 2\n8: 2\n9: 2\n11: 3\n";

pub const AGREEMENT_OWNERS: &str = "0=\"p1\" 1=\"p2\"\n1: 1\n2: 1\n8: 1\n9: 1\n";

/// State 0 stays where it is, or goes to the goal and to a trap with one half each.
pub const LOOP_OR_COIN: &str = "3 4 5\n0 0 0 1\n0 1 1 0.5\n0 1 2 0.5\n1 0 1 1\n2 0 2 1\n";

/// The coin loop gives this report.
pub const COIN_LOOP_REPORT: &str =
    "state 0 lower 0.500000000000000 upper 0.500000000000000 rounds 50 Bracket\n";

/// The threshold 0.6 of the first of two players gives this report.
pub const FIRST_IS_TRUE: &str =
    "state 0 lower 0.650000000000000 upper 0.650000000000000 rounds 1 True\n";

/// The game of three states that seed 1 draws gives this report.
pub const OF_THREE_STATES: &str =
    "model seed 1 states 3 zero 1 lower 1470588235294117 upper 1470588235294118 settled\n";

/// Words that denote no command give this report.
pub const USAGE: &str =
    "usage: stogame check TRA LAB FORMULA [--own FILE] [--rounds R] [--workers W] [--plan] [--traps] | audit TRA LAB FORMULA CERT [--own FILE] | make SEED STATES [--rounds R] [--workers W] | sure TRA LAB FORMULA [--own FILE]\n";
