//! The logs of the worked examples, as they stand in the folder `examples`.

/// Two tasks over one region, the second run waiting for the first.
pub const TWO_TASKS: &[u8] = b"legion-spy 1
ispace 1 0-3
fields 1 1
tree 1 1 1
task 1
req 1 1 1 1 rw ex
task 2
req 2 1 1 1 ro ex
run 1 1 -
run 2 2 1
end 9
";

/// A task writes one instance, and a task whose run waits for it reads there.
pub const WRITE_THEN_READ: &[u8] = b"legion-spy 1
ispace 1 0-3
fields 1 1
tree 1 1 1
task 1
req 1 1 1 1 wd ex
task 2
req 2 1 1 1 ro ex
inst 1 1 1 1 plain
map 1 1 1 1
map 2 1 1 1
run 1 1 -
run 2 2 1
end 12
";

/// A copy that comes before the second write: the third task reads the value of the first.
pub const STALE_COPY: &[u8] = b"legion-spy 1
ispace 1 0-3
fields 1 1
tree 1 1 1
task 1
req 1 1 1 1 wd ex
task 2
req 2 1 1 1 rw ex
task 3
req 3 1 1 1 ro ex
inst 1 1 1 1 plain
inst 2 1 1 1 plain
map 1 1 1 1
map 2 1 1 1
map 3 1 1 2
run 1 1 -
copy 1 2 1 1 2 1
run 2 3 2
run 3 4 3
end 18
";

/// Two reductions gathered in a reduction instance, folded into the one that is read.
pub const GATHERED_REDUCTIONS: &[u8] = b"legion-spy 1
ispace 1 0
fields 1 1
tree 1 1 1
redop 1
task 1
req 1 1 1 1 red:1 ex
task 2
req 2 1 1 1 red:1 ex
task 3
req 3 1 1 1 ro ex
inst 1 1 1 1 home
inst 2 1 1 1 red:1
map 1 1 1 2
map 2 1 1 2
map 3 1 1 1
reset 2 1 1 1 -
run 1 2 1
run 2 3 1
fold 2 1 1 1 4 2,3
run 3 5 4
end 20
";

/// Reductions with two operators, into one instance, with no wait between them.
pub const TWO_OPERATORS: &[u8] = b"legion-spy 1
ispace 1 0
fields 1 1
tree 1 1 1
redop 1
redop 2
task 1
req 1 1 1 1 red:1 ex
task 2
req 2 1 1 1 red:2 ex
inst 1 1 1 1 home
map 1 1 1 1
map 2 1 1 1
run 1 1 -
run 2 2 -
end 14
";

/// Two atomic tasks, run in the serial order, which turns program order round.
pub const TURNED_WRITES: &[u8] = b"legion-spy 1
ispace 1 0-3
fields 1 1
tree 1 1 1
task 1
req 1 1 1 1 rw at
task 2
req 2 1 1 1 rw at
serial 2 1
inst 1 1 1 1 home
map 1 1 1 1
map 2 1 1 1
run 1 1 2
run 2 2 -
end 13
";

/// The two tasks, without the wait.
pub const TWO_TASKS_UNORDERED: &[u8] = b"legion-spy 1
ispace 1 0-3
fields 1 1
tree 1 1 1
task 1
req 1 1 1 1 rw ex
task 2
req 2 1 1 1 ro ex
run 1 1 -
run 2 2 -
end 9
";

/// One step of a stencil of three pieces, without instances: tasks 4 to 6 change what 1 to 3 read, and wait for them.
pub const HALO_STENCIL: &[u8] = b"legion-spy 1
# Three pieces of a row, each with its neighbours' edge points as halo.
# Tasks 1 to 3 read field 1 of a piece and its halo, and write field 2 of the piece.
# Tasks 4 to 6 read field 2 of a piece and change its field 1: each has to wait for all that read there.
ispace 1 0-11
part 1 1 disjoint
part 2 1 aliased
ispace 2 0-3
sub 1 0 2
ispace 3 4-7
sub 1 1 3
ispace 4 8-11
sub 1 2 4
ispace 5 0-4
sub 2 0 5
ispace 6 3-8
sub 2 1 6
ispace 7 7-11
sub 2 2 7
fields 1 1,2
tree 1 1 1
task 1
req 1 1 5 1 ro ex
req 1 1 2 2 wd ex
task 2
req 2 1 6 1 ro ex
req 2 1 3 2 wd ex
task 3
req 3 1 7 1 ro ex
req 3 1 4 2 wd ex
task 4
req 4 1 2 2 ro ex
req 4 1 2 1 rw ex
task 5
req 5 1 3 2 ro ex
req 5 1 3 1 rw ex
task 6
req 6 1 4 2 ro ex
req 6 1 4 1 rw ex
run 1 1 -
run 2 2 -
run 3 3 -
run 4 4 1,2
run 5 5 1,2,3
run 6 6 2,3
end 41
";

/// The same, but task 5 does not wait for task 3, which reads its last point.
pub const HALO_STENCIL_UNORDERED: &[u8] = b"legion-spy 1
# Three pieces of a row, each with its neighbours' edge points as halo.
# Tasks 1 to 3 read field 1 of a piece and its halo, and write field 2 of the piece.
# Tasks 4 to 6 read field 2 of a piece and change its field 1: task 5 does not wait for task 3, which reads its last point.
ispace 1 0-11
part 1 1 disjoint
part 2 1 aliased
ispace 2 0-3
sub 1 0 2
ispace 3 4-7
sub 1 1 3
ispace 4 8-11
sub 1 2 4
ispace 5 0-4
sub 2 0 5
ispace 6 3-8
sub 2 1 6
ispace 7 7-11
sub 2 2 7
fields 1 1,2
tree 1 1 1
task 1
req 1 1 5 1 ro ex
req 1 1 2 2 wd ex
task 2
req 2 1 6 1 ro ex
req 2 1 3 2 wd ex
task 3
req 3 1 7 1 ro ex
req 3 1 4 2 wd ex
task 4
req 4 1 2 2 ro ex
req 4 1 2 1 rw ex
task 5
req 5 1 3 2 ro ex
req 5 1 3 1 rw ex
task 6
req 6 1 4 2 ro ex
req 6 1 4 1 rw ex
run 1 1 -
run 2 2 -
run 3 3 -
run 4 4 1,2
run 5 5 1,2
run 6 6 2,3
end 41
";

/// A task reads what an earlier one writes, and its run does not wait.
pub const MISSING_WAIT: &[u8] = b"legion-spy 1
# Task 2 reads the instance that task 1 writes, but its run does not wait for that of task 1.
ispace 1 0-3
fields 1 1
tree 1 1 1
task 1
req 1 1 1 1 wd ex
task 2
req 2 1 1 1 ro ex
inst 1 1 1 1 plain
map 1 1 1 1
map 2 1 1 1
run 1 1 -
run 2 2 -
end 12
";

/// A task is mapped to another instance than its reader, and nothing is copied.
pub const MISSING_COPY: &[u8] = b"legion-spy 1
# Task 1 writes instance 1, and its reader, task 2, is mapped to instance 2.
# The runs are in order, but no copy takes the values over.
ispace 1 0-3
fields 1 1
tree 1 1 1
task 1
req 1 1 1 1 wd ex
task 2
req 2 1 1 1 ro ex
inst 1 1 1 1 plain
inst 2 1 1 1 plain
map 1 1 1 1
map 2 1 1 2
run 1 1 -
run 2 2 1
end 13
";

/// The stale copy, taken after the second write.
pub const FRESH_COPY: &[u8] = b"legion-spy 1
# Tasks 1 and 2 write instance 1. The copy waits for both, so task 3 finds in instance 2 what task 2 wrote.
ispace 1 0-3
fields 1 1
tree 1 1 1
task 1
req 1 1 1 1 wd ex
task 2
req 2 1 1 1 rw ex
task 3
req 3 1 1 1 ro ex
inst 1 1 1 1 plain
inst 2 1 1 1 plain
map 1 1 1 1
map 2 1 1 1
map 3 1 1 2
run 1 1 -
run 2 2 1
copy 1 2 1 1 3 2
run 3 4 3
end 18
";

/// A writer on another instance than an earlier reader, which waits for nothing.
pub const WRITER_APART: &[u8] = b"legion-spy 1
# Task 3 overwrites what task 2 reads, but in an instance of its own.
# It can run at any time: task 2 finds the values of task 1 in instance 1 all the same.
ispace 1 0-3
fields 1 1
tree 1 1 1
task 1
req 1 1 1 1 wd ex
task 2
req 2 1 1 1 ro ex
task 3
req 3 1 1 1 wd ex
inst 1 1 1 1 plain
inst 2 1 1 1 plain
map 1 1 1 1
map 2 1 1 1
map 3 1 1 2
run 1 1 -
run 2 2 1
run 3 3 -
end 17
";

/// A fill that no put carries out.
pub const FILL_NEVER_PUT: &[u8] = b"legion-spy 1
# Sequential execution fills the region with 0 before task 2 reads it.
# In the run no put did that, so nothing is known of what task 2 read.
ispace 1 0-3
fields 1 1
tree 1 1 1
fill 1 1 1 1 0
task 2
req 2 1 1 1 ro ex
inst 1 1 1 1 plain
map 2 1 1 1
run 2 1 -
end 9
";

/// Two writers whose events are merged, and a reader that waits for the merge.
pub const MERGED_WAITS: &[u8] = b"legion-spy 1
# Tasks 1 and 2 write a half each. Task 3 reads both, and waits for a merge of their events.
ispace 1 0-7
part 1 1 disjoint
ispace 2 0-3
sub 1 0 2
ispace 3 4-7
sub 1 1 3
fields 1 1
tree 1 1 1
task 1
req 1 1 2 1 wd ex
task 2
req 2 1 3 1 wd ex
task 3
req 3 1 1 1 ro ex
inst 1 1 1 1 plain
map 1 1 1 1
map 2 1 1 1
map 3 1 1 1
run 1 1 -
run 2 2 -
merge 3 1,2
run 3 4 3
end 22
";

/// Barriers that list every task before them.
pub const FULL_BARRIERS: &[u8] = b"legion-spy 1
# Three steps over two pieces. Between steps stands a barrier, a merge that lists all tasks that ran before it. The second lists the tasks of the first step in vain: it waits for those of the second step, which waited for the first barrier.
ispace 1 0-7
part 1 1 disjoint
ispace 2 0-3
sub 1 0 2
ispace 3 4-7
sub 1 1 3
fields 1 1,2
tree 1 1 1
task 1
req 1 1 2 1 wd ex
task 2
req 2 1 3 1 wd ex
task 3
req 3 1 1 1 ro ex
req 3 1 2 2 wd ex
task 4
req 4 1 1 1 ro ex
req 4 1 3 2 wd ex
task 5
req 5 1 1 2 ro ex
req 5 1 2 1 rw ex
task 6
req 6 1 1 2 ro ex
req 6 1 3 1 rw ex
inst 1 1 1 1,2 plain
map 1 1 1 1
map 2 1 1 1
map 3 1 1 1
map 3 2 2 1
map 4 1 1 1
map 4 2 2 1
map 5 1 2 1
map 5 2 1 1
map 6 1 2 1
map 6 2 1 1
run 1 1 -
run 2 2 -
merge 3 1,2
run 3 4 3
run 4 5 3
merge 6 1,2,4,5
run 5 7 6
run 6 8 6
end 43
";

/// Two runs that wait for each other.
pub const WAITS_IN_A_CYCLE: &[u8] = b"legion-spy 1
# Each run waits for the other: in a real run neither would have begun.
ispace 1 0-3
fields 1 1
tree 1 1 1
task 1
req 1 1 1 1 wd ex
task 2
req 2 1 1 1 ro ex
inst 1 1 1 1 plain
map 1 1 1 1
map 2 1 1 1
run 1 1 2
run 2 2 1
end 12
";

/// Two reductions gathered, and folded twice.
pub const FOLDED_TWICE: &[u8] = b"legion-spy 1
# Tasks 1 and 2 reduce into instance 2, which is folded into instance 1, and then once more.
# So task 3 finds each contribution twice.
ispace 1 0
fields 1 1
tree 1 1 1
redop 1
task 1
req 1 1 1 1 red:1 ex
task 2
req 2 1 1 1 red:1 ex
task 3
req 3 1 1 1 ro ex
inst 1 1 1 1 home
inst 2 1 1 1 red:1
map 1 1 1 2
map 2 1 1 2
map 3 1 1 1
reset 2 1 1 1 -
run 1 2 1
run 2 3 1
fold 2 1 1 1 4 2,3
fold 2 1 1 1 5 4
run 3 6 5
end 21
";

/// Two reductions gathered, and folded before the second is sure to be there.
pub const FOLDED_EARLY: &[u8] = b"legion-spy 1
# Tasks 1 and 2 reduce into instance 2. The fold waits for task 1 alone, so it may miss what task 2 adds.
ispace 1 0
fields 1 1
tree 1 1 1
redop 1
task 1
req 1 1 1 1 red:1 ex
task 2
req 2 1 1 1 red:1 ex
task 3
req 3 1 1 1 ro ex
inst 1 1 1 1 home
inst 2 1 1 1 red:1
map 1 1 1 2
map 2 1 1 2
map 3 1 1 1
reset 2 1 1 1 -
run 1 2 1
run 2 3 1
fold 2 1 1 1 4 2
run 3 5 4
end 20
";

/// Two reductions gathered in an instance that was not reset.
pub const NEVER_EMPTIED: &[u8] = b"legion-spy 1
# Tasks 1 and 2 reduce into instance 2, which no reset emptied before.
# Nothing is known of what it held, nor of what is folded out of it.
ispace 1 0
fields 1 1
tree 1 1 1
redop 1
task 1
req 1 1 1 1 red:1 ex
task 2
req 2 1 1 1 red:1 ex
task 3
req 3 1 1 1 ro ex
inst 1 1 1 1 home
inst 2 1 1 1 red:1
map 1 1 1 2
map 2 1 1 2
map 3 1 1 1
run 1 1 -
run 2 2 -
fold 2 1 1 1 3 1,2
run 3 4 3
end 19
";

/// An atomic pair that was taken the other way round, and no line says so.
pub const UNSTATED_TURN: &[u8] = b"legion-spy 1
# Two atomic tasks may be taken in either order. Task 2 ran first, but no serial line says so:
# program order is asked for.
ispace 1 0-3
fields 1 1
tree 1 1 1
task 1
req 1 1 1 1 rw at
task 2
req 2 1 1 1 rw at
inst 1 1 1 1 home
map 1 1 1 1
map 2 1 1 1
run 1 1 2
run 2 2 -
end 12
";

/// Two pieces with halos: copies carry the edges over.
pub const HALO_EXCHANGE: &[u8] = b"legion-spy 1
# A row of 8 points in two pieces. The instance of each piece has one point of its neighbour as halo.
# Tasks 2 and 3 change the pieces. Two copies then carry the edges into the halos, where tasks 4 and 5 read them.
ispace 1 0-7
part 1 1 disjoint
part 2 1 aliased
ispace 2 0-3
sub 1 0 2
ispace 3 4-7
sub 1 1 3
ispace 4 0-4
sub 2 0 4
ispace 5 3-7
sub 2 1 5
ispace 6 3
ispace 7 4
fields 1 1
tree 1 1 1
inst 1 1 4 1 plain
inst 2 1 5 1 plain
fill 1 1 1 1 0
put 1 4 1 0 1 -
put 2 5 1 0 2 -
task 2
req 2 1 2 1 rw ex
map 2 1 1 1
run 2 3 1
task 3
req 3 1 3 1 rw ex
map 3 1 1 2
run 3 4 2
copy 1 2 6 1 5 2,3
copy 2 1 7 1 6 1,4
task 4
req 4 1 4 1 ro ex
map 4 1 1 1
run 4 7 3,6
task 5
req 5 1 5 1 ro ex
map 5 1 1 2
run 5 8 4,5
end 38
";

/// The same, but the copy into one halo is missing.
pub const STALE_HALO: &[u8] = b"legion-spy 1
# The same two pieces, but no copy takes point 4 into the halo of the left piece.
# Task 4 waits for task 3, and still reads there what the put left.
ispace 1 0-7
part 1 1 disjoint
part 2 1 aliased
ispace 2 0-3
sub 1 0 2
ispace 3 4-7
sub 1 1 3
ispace 4 0-4
sub 2 0 4
ispace 5 3-7
sub 2 1 5
ispace 6 3
ispace 7 4
fields 1 1
tree 1 1 1
inst 1 1 4 1 plain
inst 2 1 5 1 plain
fill 1 1 1 1 0
put 1 4 1 0 1 -
put 2 5 1 0 2 -
task 2
req 2 1 2 1 rw ex
map 2 1 1 1
run 2 3 1
task 3
req 3 1 3 1 rw ex
map 3 1 1 2
run 3 4 2
copy 1 2 6 1 5 2,3
task 4
req 4 1 4 1 ro ex
map 4 1 1 1
run 4 7 3,4
task 5
req 5 1 5 1 ro ex
map 5 1 1 2
run 5 8 4,5
end 37
";

/// A copy into a halo, taken before the point that it carries is changed.
pub const EARLY_HALO: &[u8] = b"legion-spy 1
# The same two pieces, but the copy of point 4 into the halo of the left piece is taken before task 3 changes it.
# Task 4 waits for task 3 and for the copy, and still reads there what the put left.
ispace 1 0-7
part 1 1 disjoint
part 2 1 aliased
ispace 2 0-3
sub 1 0 2
ispace 3 4-7
sub 1 1 3
ispace 4 0-4
sub 2 0 4
ispace 5 3-7
sub 2 1 5
ispace 6 3
ispace 7 4
fields 1 1
tree 1 1 1
inst 1 1 4 1 plain
inst 2 1 5 1 plain
fill 1 1 1 1 0
put 1 4 1 0 1 -
put 2 5 1 0 2 -
task 2
req 2 1 2 1 rw ex
map 2 1 1 1
run 2 3 1
task 3
req 3 1 3 1 rw ex
map 3 1 1 2
copy 2 1 7 1 6 1,2
run 3 4 2,6
copy 1 2 6 1 5 2,3
task 4
req 4 1 4 1 ro ex
map 4 1 1 1
run 4 7 3,4,6
task 5
req 5 1 5 1 ro ex
map 5 1 1 2
run 5 8 4,5
end 38
";

/// Two launches over the pieces of a region: each task changes a piece, and then each reads a piece with its halo.
pub const LAUNCHED_HALO: &[u8] = b"legion-spy 1
# A row of 8 points in two pieces, as in halo_exchange.log: tasks 2 and 3 change a piece each, and tasks 4 and 5 read a piece with its halo.
# Each pair is one launch over the colours 0 and 1, whose tasks have a requirement each, on the subspace of their colour.
ispace 1 0-7
part 1 1 disjoint
part 2 1 aliased
ispace 2 0-3
sub 1 0 2
ispace 3 4-7
sub 1 1 3
ispace 4 0-4
sub 2 0 4
ispace 5 3-7
sub 2 1 5
ispace 6 3
ispace 7 4
fields 1 1
tree 1 1 1
inst 1 1 4 1 plain
inst 2 1 5 1 plain
fill 1 1 1 1 0
put 1 4 1 0 1 -
put 2 5 1 0 2 -
launch 2 0,1
lreq 2 1 1 1 rw ex
map 2 1 1 1
map 3 1 1 2
run 2 3 1
run 3 4 2
copy 1 2 6 1 5 2,3
copy 2 1 7 1 6 1,4
launch 4 0,1
lreq 4 1 2 1 ro ex
map 4 1 1 1
map 5 1 1 2
run 4 7 3,6
run 5 8 4,5
end 34
";

/// A launch whose tasks change pieces that overlap.
pub const LAUNCHED_OVERLAP: &[u8] = b"legion-spy 1
# The tasks of a launch change a piece each, but over the pieces with their halos: both would write the points 3 and 4.
ispace 1 0-7
part 2 1 aliased
ispace 4 0-4
sub 2 0 4
ispace 5 3-7
sub 2 1 5
fields 1 1
tree 1 1 1
inst 1 1 1 1 home
launch 2 0,1
lreq 2 1 2 1 rw ex
map 2 1 1 1
map 3 1 1 1
run 2 1 -
run 3 2 1
end 15
";

/// A task hands each half of a region to a task of its own.
pub const NESTED_HALVES: &[u8] = b"legion-spy 1
# A task with a whole region (group 1) hands a half of it to each of two tasks, which launch the tasks of their half.
# The halves are free of each other, so a runtime may analyse what lies below them apart.
ispace 1 0-7
part 1 1 disjoint
ispace 2 0-3
sub 1 0 2
ispace 3 4-7
sub 1 1 3
fields 1 1
tree 1 1 1
group 1 0
greq 1 1 1 1 rw
group 2 1
greq 2 1 2 1 rw
group 3 1
greq 3 1 3 1 rw
# Tasks 1 and 2 write the halves, and tasks 3 and 4 read them.
task 1
req 1 1 2 1 wd ex
member 1 2
task 2
req 2 1 3 1 wd ex
member 2 3
task 3
req 3 1 2 1 ro ex
member 3 2
task 4
req 4 1 3 1 ro ex
member 4 3
run 1 1 -
run 2 2 -
run 3 3 1
run 4 4 2
end 20
";

/// A task asks for a point that the task above it does not have.
pub const NESTED_OVERREACH: &[u8] = b"legion-spy 1
# The task of the left half (group 2) launches one that smooths it (group 4), which would read a point of the right half.
# Group 2 has no such privilege to give: who analyses the halves apart would miss that group 4 has to wait for group 3.
ispace 1 0-7
part 1 1 disjoint
ispace 2 0-3
sub 1 0 2
ispace 3 4-7
sub 1 1 3
part 2 1 aliased
ispace 4 0-4
sub 2 0 4
fields 1 1
tree 1 1 1
group 1 0
greq 1 1 1 1 rw
group 2 1
greq 2 1 2 1 rw
group 3 1
greq 3 1 3 1 rw
group 4 2
greq 4 1 2 1 rw
greq 4 1 4 1 ro
task 1
req 1 1 4 1 ro ex
member 1 4
run 1 1 -
end 14
";
