use crate::text::Text::{self, Crlf, Cut, Lines};

// No byte.
pub(crate) const EMPTY: Text = Lines(&[]);

// The note of words that are no command's.
pub(crate) const NOT_UNDERSTOOD: Text = Lines(&["rcpsp: words not understood"]);

// Six activities, one resource of capacity 2.
pub(crate) const SIX: Text = Lines(&[
    "6 1",
    "2",
    "0 0 3 2 3 4",
    "3 2 1 5",
    "2 1 1 6",
    "2 1 1 6",
    "1 1 1 6",
    "0 0 0",
]);

// The same numbers, one on each line.
pub(crate) const SIX_CRLF: Text = Crlf(&[
    "6", "1", "2", "0", "0", "3", "2", "3", "4", "3", "2", "1", "5", "2", "1", "1", "6", "2", "1",
    "1", "6", "1", "1", "1", "6", "0", "0", "0", "",
]);

// The same instance in the layout of the usual generator.
pub(crate) const SIX_SM: Text = Lines(&[
    "************************************************************************",
    "file with basedata            : e1.bas",
    "initial value random generator: 1",
    "************************************************************************",
    "projects                      :  1",
    "jobs (incl. supersource/sink ):  6",
    "horizon                       :  8",
    "RESOURCES",
    "  - renewable                 :  1   R",
    "  - nonrenewable              :  0   N",
    "  - doubly constrained        :  0   D",
    "************************************************************************",
    "PROJECT INFORMATION:",
    "pronr.  #jobs rel.date duedate tardcost  MPM-Time",
    "    1      4      0        4        0        4",
    "************************************************************************",
    "PRECEDENCE RELATIONS:",
    "jobnr.    #modes  #successors   successors",
    "   1        1          3           2   3   4",
    "   2        1          1           5",
    "   3        1          1           6",
    "   4        1          1           6",
    "   5        1          1           6",
    "   6        1          0",
    "************************************************************************",
    "REQUESTS/DURATIONS:",
    "jobnr. mode duration  R 1",
    "------------------------------------------------------------------------",
    "  1      1     0       0",
    "  2      1     3       2",
    "  3      1     2       1",
    "  4      1     2       1",
    "  5      1     1       1",
    "  6      1     0       0",
    "************************************************************************",
    "RESOURCEAVAILABILITIES:",
    "  R 1",
    "    2",
    "************************************************************************",
]);

// The same instance as it is written in the `.sm` format.
pub(crate) const SIX_WRITTEN: Text = Lines(&[
    "************************************************************************",
    "projects                      :  1",
    "jobs (incl. supersource/sink ):  6",
    "horizon                       :  8",
    "RESOURCES",
    "  - renewable                 :  1   R",
    "  - nonrenewable              :  0   N",
    "  - doubly constrained        :  0   D",
    "************************************************************************",
    "PRECEDENCE RELATIONS:",
    "jobnr.    #modes  #successors   successors",
    "   1        1          3    2    3    4",
    "   2        1          1    5",
    "   3        1          1    6",
    "   4        1          1    6",
    "   5        1          1    6",
    "   6        1          0",
    "************************************************************************",
    "REQUESTS/DURATIONS:",
    "jobnr. mode duration  R 1",
    "   1     1        0       0",
    "   2     1        3       2",
    "   3     1        2       1",
    "   4     1        2       1",
    "   5     1        1       1",
    "   6     1        0       0",
    "************************************************************************",
    "RESOURCEAVAILABILITIES:",
    "  R 1",
    "       2",
    "************************************************************************",
]);

// Its serial schedule by number, as a table and as CSV.
pub(crate) const SIX_TABLE: Text = Lines(&[
    "activity   start  finish",
    "       1       0       0",
    "       2       0       3",
    "       3       3       5",
    "       4       3       5",
    "       5       5       6",
    "       6       6       6",
    "makespan 6",
]);

pub(crate) const SIX_CSV: Text = Lines(&[
    "activity,start,finish",
    "1,0,0",
    "2,0,3",
    "3,3,5",
    "4,3,5",
    "5,5,6",
    "6,6,6",
]);

// Its schedule by sample 54 of seed 42, the best of the samples from there on.
pub(crate) const SIX_BY_SAMPLE: Text = Lines(&[
    "activity   start  finish",
    "       1       0       0",
    "       2       0       3",
    "       3       3       5",
    "       4       3       5",
    "       5       5       6",
    "       6       6       6",
    "makespan 6",
    "sample 54",
]);

// No capacity in the periods 1 and 2.
pub(crate) const HOLIDAYS: Text = Lines(&["2", "1 1 0", "1 3 2"]);

// The six activities by number, on this calendar.
pub(crate) const SIX_ON_HOLIDAYS: Text = Lines(&[
    "activity   start  finish",
    "       1       0       0",
    "       2       3       6",
    "       3       6       8",
    "       4       6       8",
    "       5       8       9",
    "       6       9       9",
    "makespan 9",
]);

// Its windows.
pub(crate) const SIX_WINDOWS: Text = Lines(&[
    "activity  earliest    latest",
    "       1         0         0",
    "       2         0         0",
    "       3         0         2",
    "       4         0         2",
    "       5         3         3",
    "       6         4         4",
    "critical 4",
    "capacity 6",
]);

// Four activities of which the fourth follows the second, one resource of capacity 1.
pub(crate) const FOUR: Text = Lines(&["4 1 1", "1 1 0", "2 1 1 4", "4 1 0", "1 1 0"]);

// Their schedules by the latest finish, and by the latest start.
pub(crate) const FOUR_BY_LFT: Text = Lines(&[
    "activity   start  finish",
    "       1       2       3",
    "       2       0       2",
    "       3       3       7",
    "       4       7       8",
    "makespan 8",
]);

pub(crate) const FOUR_BY_LST: Text = Lines(&[
    "activity   start  finish",
    "       1       6       7",
    "       2       4       6",
    "       3       0       4",
    "       4       7       8",
    "makespan 8",
]);

// One activity that takes no time and demands 5 of 2.
pub(crate) const INSTANT: Text = Cut(&["1 1 2 0 5 0"]);

// One activity that takes time and demands 5 of 2.
pub(crate) const MISFIT: Text = Cut(&["1 1 2 1 5 0"]);

// Two activities that precede one another.
pub(crate) const RING: Text = Cut(&["2 0 1 1 2 1 1 1"]);

// One activity that precedes itself.
pub(crate) const LOOP: Text = Cut(&["1 0 1 1 1"]);

// A chart whose columns stand for 3 periods.
pub(crate) const WIDE_CHART: Text = Lines(&[
    "column 3",
    "   1 ##################################################..................................",
    "   2 ..................................................##################################",
    "makespan 250",
]);

// One activity of no duration and no resource, as it is written.
pub(crate) const ONE_WRITTEN: Text = Lines(&["1 0", "", "0 0"]);

// Six other activities, one resource of capacity 2.
pub(crate) const OTHER_SIX: Text = Lines(&[
    "6 1",
    "2",
    "0 0 3 2 4 5",
    "1 1 1 3",
    "3 1 1 6",
    "2 1 1 6",
    "2 1 1 6",
    "0 0 0",
]);

// A list that does not suit them.
pub(crate) const SLOW_LIST: Text = Cut(&["1 4 5 2 3 6"]);

// The best that they come to.
pub(crate) const OTHER_SIX_TABLE: Text = Lines(&[
    "activity   start  finish",
    "       1       0       0",
    "       2       0       1",
    "       3       1       4",
    "       4       0       2",
    "       5       2       4",
    "       6       4       4",
    "makespan 4",
]);
