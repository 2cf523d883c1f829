// The papers that come with the program: each is a text as a file has it, whose first line is its title. Kinds and ops
// are numbers there (`program::kinds`, `program::ops`), and 65535 is the parent of node 0.

// Paper 1 is the first. It is played where none is asked for.
pub static PAPERS: [&str; 18] = [
    PRODUCER_AND_CONSUMER,
    TWO_COUNTDOWNS,
    SWAP,
    FACTORIAL,
    ONE_DELAY,
    SWAP_WITH_WRONG_BOOK,
    TWO_STORES,
    LATE_SENDER,
    TWO_INPUTS,
    EMPTY_LOOP,
    LOOPS_NEVER_ENTERED,
    ENDLESS_DELAYS,
    COUNTDOWN,
    LOOP_RUNNING_EMPTY,
    WRAPPING,
    COUNTER_OF_12_BITS,
    INPUT_OF_1_BIT,
    VALUE_TOO_WIDE,
];

pub fn text_of(paper: u16) -> Option<&'static str> {
    let place = usize::from(paper).checked_sub(1)?;
    PAPERS.get(place).copied()
}

const PRODUCER_AND_CONSUMER: &str =
    "# A producer sends 1, 4 and 9 over a channel, and a consumer adds them up
12 11 4 1
1 0 0  0 3 0  7 0 1      # v0, 3, v0 < 3
0 1 0  2 0 3  4 0 0      # 1, v0 + 1, v0 * v0
1 1 0  7 6 1  2 6 3      # v1, v1 < 3, v1 + 1
1 3 0  1 2 0  2 9 10     # v3, v2, v3 + v2
2 65535 11 0 0
7 0 5 2 0
1 1 5 0 0
3 2 4 0 4
5 2 5 0 5
7 0 11 7 0
1 5 11 0 0
4 6 8 0 2
2 6 11 0 0
3 8 10 1 8
3 8 11 3 11
16 16 16 16
0 0 0 0
20
";

const TWO_COUNTDOWNS: &str = "# Two threads count down, and the next statement waits for both
5 9 3 0
1 0 0  0 1 0  3 0 1      # v0, 1, v0 - 1
1 1 0  3 3 1             # v1, v1 - 1
1 65535 9 0 0
2 0 8 0 0
7 1 4 0 0
3 2 4 0 2
7 1 8 3 0
1 4 8 0 0
3 5 7 1 4
8 5 8 0 0
3 0 9 2 1
16 16 16
3 2 0
20
";

const SWAP: &str = "# Two assignments swap two variables
2 3 2 0
1 0 0  1 1 0             # v0, v1
2 65535 3 0 0
3 0 2 0 1
3 0 3 1 0
16 16
3 7
5
";

const FACTORIAL: &str = "# A factorial, with two assignments in a cycle
5 6 2 0
1 0 0  1 1 0  0 1 0      # v0, v1, 1
4 1 0  3 0 2             # v1 * v0, v0 - 1
1 65535 6 0 0
3 0 2 1 2
7 0 6 0 0
2 2 6 0 0
3 3 5 1 3
3 3 6 0 4
16 16
5 0
20
";

const ONE_DELAY: &str = "# One DLY
0 1 0 0
8 65535 1 0 0
5
0
";

const SWAP_WITH_WRONG_BOOK: &str = "# The swap with the book 1,1, which is wrong
2 3 2 0
1 0 0  1 1 0             # v0, v1
2 65535 3 0 0
3 0 2 0 1
3 0 3 1 0
16 16
3 7
5
1 1
";

const TWO_STORES: &str = "# Two assignments to one variable
1 3 1 0
0 1 0
2 65535 3 0 0
3 0 2 0 0
3 0 3 0 0
16
0
5
1 2
";

const LATE_SENDER: &str = "# An IN waits for an OUT
1 5 1 1
0 5 0
2 65535 5 0 0
4 0 2 0 0
1 0 5 0 0
8 2 4 0 0
5 2 5 0 0
16
0
5
";

const TWO_INPUTS: &str = "# Two IN on one channel
0 3 2 1
2 65535 3 0 0
4 0 2 0 0
4 0 3 0 1
16 16
0 0
5
1 2
";

const EMPTY_LOOP: &str = "# A loop around a loop that is never entered
2 3 0 0
0 1 0  0 0 0
7 65535 3 0 0
7 0 3 1 0
8 1 3 0 0
5
";

const LOOPS_NEVER_ENTERED: &str = "# Two loops that are never entered
1 5 0 0
0 0 0
2 65535 5 0 0
7 0 3 0 0
8 1 3 0 0
7 0 5 0 0
8 3 5 0 0
5
";

const ENDLESS_DELAYS: &str = "# Two DLY in a loop without end
1 4 0 0
0 1 0
7 65535 4 0 0
2 0 4 0 0
8 1 3 0 0
8 1 4 0 0
5
";

const COUNTDOWN: &str = "# A countdown from 1
3 2 1 0
1 0 0  0 1 0  3 0 1      # v0, 1, v0 - 1
7 65535 2 0 0
3 0 2 0 2
16
1
5
";

const LOOP_RUNNING_EMPTY: &str = "# A loop that runs empty after its first cycle
3 4 1 0
0 1 0  1 0 0  0 0 0      # 1, v0, 0
7 65535 4 0 0
1 0 4 0 0
7 1 4 1 0
3 2 4 0 2
16
1
5
";

const WRAPPING: &str = "# 65535 + 1 and 0 - 1
5 3 2 0
0 65535 0  0 1 0  0 0 0  # 65535, 1, 0
2 0 1  3 2 1             # 65535 + 1, 0 - 1
2 65535 3 0 0
3 0 2 0 3
3 0 3 1 4
16 16
7 7
5
";

const COUNTER_OF_12_BITS: &str = "# A counter of 12 bits passes 4095
3 2 1 0
0 1 0  1 0 0  2 1 0      # 1, v0, v0 + 1
7 65535 2 0 0
3 0 2 0 2
12
4093
5
";

const INPUT_OF_1_BIT: &str = "# An IN into a variable of 1 bit, beside an assignment of what is sent
3 4 2 1
1 1 0  0 4 0  2 0 1      # v1, 4, v1 + 4
2 65535 4 0 0
5 0 2 0 2
4 0 3 0 0
3 0 4 1 2
1 16
0 3
5
";

const VALUE_TOO_WIDE: &str = "# A starting value that is too wide for 12 bits
3 2 1 0
0 1 0  1 0 0  2 1 0      # 1, v0, v0 + 1
7 65535 2 0 0
3 0 2 0 2
12
4096
5
";
