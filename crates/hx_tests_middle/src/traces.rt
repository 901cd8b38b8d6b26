//! Sessions as traces, with ` => ` for the tab before an outcome, and `~` for 5,000 times `x`. All but those whose first line is
//! `guarded` are legal in a plain life, and each comes about in a core. Where lines stand before a trace, it comes about
//! on a disk in memory too: `fail N` and `fuse N` say which of its calls fail, counted from its first one, and `slot` lines
//! what stands in its slot files. Lines behind a trace begin with `> `. Those with `not` have a line that, put into the trace by
//! itself in the place of the line of that number, or behind the last one, is the first that isn't legal; a number alone
//! leaves its line out. Those with `crash` have what another life restores after a crash with this pick at the end of the
//! first life, and those with `file` what is read of the user's file there.

pub const TRACES: &str = "\
disk
hotexit trace 1
life 1
name file:///a
w0 create file:///a => created 1
w0 edit file:///a 0 0 =hello => edited 2
b0 vault file:///a => prepare 2 ok
b0 vault file:///a => body 2 ok
b0 vault file:///a => open 2 ok
q quit => quit
end restart
copy file:///a version 2 dirty backup 2
life 2
name file:///a
pair 0 restored file:///a none =hello
q quit => quit
end script
copy file:///a version 1 dirty backup 1
> not 5 w0 edit file:///a 0 0 =hello => edited 3
> not 9 q quit => vetoed file:///a
> not 11 copy file:///a version 2 dirty backup none
> not 15 q quit => vetoed file:///a
> not 17
> not 18 ticket 1 clean

hotexit trace 1
life 1
q quit => quit
end script

disk
fuse 267
hotexit trace 1
life 1
name file:///a
w0 create file:///a => created 1
w0 edit file:///a 0 0 =hello => edited 2
b0 vault file:///a => prepare 2 ok
b0 vault file:///a => body 2 ok
b0 vault file:///a => open 2 ok
w0 edit file:///a 5 0 =! => edited 3
b0 vault file:///a => prepare 3 ok
b0 vault file:///a => body 3 ok
b0 vault file:///a => open 3 fault
end crash 0
copy file:///a version 3 dirty backup 2
life 2
name file:///a
pair 0 restored file:///a none =hello
q quit => quit
end script
copy file:///a version 1 dirty backup 1
> not 12 b0 vault file:///a => open 2 fault
> not 14 copy file:///a version 3 dirty backup 3
> crash 0 pair 0 restored file:///a none =hello
> crash 1 pair 0 restored file:///a none =hello!
> crash 2 pair 0 restored file:///a none =hello!
> crash 3 pair 0 restored file:///a none =hello

disk
hotexit trace 1
life 1
name file:///a
w0 create file:///a => created 1
w0 edit file:///a 0 0 =hello => edited 2
b0 vault file:///a => prepare 2 ok
b0 vault file:///a => body 2 ok
b0 vault file:///a => open 2 ok
w0 edit file:///a 5 0 =! => edited 3
b0 vault file:///a => prepare 3 ok
b0 vault file:///a => body 3 ok
b0 vault file:///a => open 3 ok
w0 close file:///a => closed
b0 vault file:///a => fade ok
b0 vault file:///a => drop ok
end crash 1
life 2
name file:///a
q quit => quit
end script
> not 14 b0 vault file:///a => drop ok
> not 19 q quit => vetoed file:///a
> crash 0
> crash 1
> crash 2
> crash 3

hotexit trace 1
life 1
name file:///src/main.rs
w1 outside file:///src/main.rs 500 =x => written
w0 open file:///src/main.rs => opened 500 40000
w0 edit file:///src/main.rs 100 0 =fix%0A => edited 2
w0 edit file:///src/main.rs 200 0 =fix%0A => edited 3
w0 edit file:///src/main.rs 300 0 =fix%0A => edited 4
w0 edit file:///src/main.rs 400 0 =fix%0A => edited 5
w0 edit file:///src/main.rs 500 0 =fix%0A => edited 6
w0 edit file:///src/main.rs 600 0 =fix%0A => edited 7
b0 vault file:///src/main.rs => prepare 7 ok
b0 vault file:///src/main.rs => body 7 ok
b0 vault file:///src/main.rs => body 7 ok
b0 vault file:///src/main.rs => body 7 ok
b0 vault file:///src/main.rs => body 7 ok
b0 vault file:///src/main.rs => body 7 ok
b0 vault file:///src/main.rs => body 7 ok
b0 vault file:///src/main.rs => body 7 ok
b0 vault file:///src/main.rs => body 7 ok
b0 vault file:///src/main.rs => body 7 ok
b0 vault file:///src/main.rs => body 7 ok
b0 vault file:///src/main.rs => open 7 ok
w0 save file:///src/main.rs => started 7
s0 flush file:///src/main.rs => check 500 40000
w0 edit file:///src/main.rs 700 0 =fix%0A => edited 8
s0 flush file:///src/main.rs => saved 7 16000 40024
w0 edit file:///src/main.rs 800 0 =fix%0A => edited 9
w0 edit file:///src/main.rs 900 0 =fix%0A => edited 10
w0 edit file:///src/main.rs 1000 0 =fix%0A => edited 11
w0 edit file:///src/main.rs 1100 0 =fix%0A => edited 12
w0 edit file:///src/main.rs 1200 0 =fix%0A => edited 13
b0 vault file:///src/main.rs => prepare 13 ok
b0 vault file:///src/main.rs => body 13 ok
b0 vault file:///src/main.rs => body 13 ok
b0 vault file:///src/main.rs => body 13 ok
b0 vault file:///src/main.rs => body 13 ok
b0 vault file:///src/main.rs => body 13 ok
b0 vault file:///src/main.rs => body 13 ok
b0 vault file:///src/main.rs => body 13 ok
b0 vault file:///src/main.rs => body 13 ok
b0 vault file:///src/main.rs => body 13 ok
b0 vault file:///src/main.rs => body 13 ok
b0 vault file:///src/main.rs => open 13 ok
q quit => quit
end script
copy file:///src/main.rs version 13 dirty backup 13
ticket 21 saved 7
> not 23 b0 vault file:///src/main.rs => body 7 ok
> not 27 s0 flush file:///src/main.rs => saved 8 16000 40024

disk
hotexit trace 1
life 1
name file:///a
w1 outside file:///a 500 =~ => written
w0 open file:///a => opened 500 5000
w0 edit file:///a 0 0 =y => edited 2
b0 vault file:///a => prepare 2 ok
b0 vault file:///a => body 2 ok
w0 edit file:///a 0 0 =z => edited 3
b0 vault file:///a => body 2 ok
b0 vault file:///a => open 2 ok
b0 vault file:///a => prepare 3 ok
end crash 0
copy file:///a version 3 dirty backup 2
life 2
name file:///a
pair 0 restored file:///a 500 5000 =y~
end script
copy file:///a version 1 dirty backup 1
> not 10 b0 vault file:///a => open 2 ok
> not 11 b0 vault file:///a => body 2 ok
> crash 1 pair 0 restored file:///a 500 5000 =y~

disk
fail 267
hotexit trace 1
life 1
name file:///a
w1 outside file:///a 500 =~ => written
w0 open file:///a => opened 500 5000
w0 edit file:///a 0 0 =y => edited 2
b0 vault file:///a => prepare 2 ok
b0 vault file:///a => body 2 ok
b0 vault file:///a => body 2 fault
b0 vault file:///a => idle
end crash 1
copy file:///a version 2 dirty backup none
life 2
name file:///a
end script
> not 10 b0 vault file:///a => body 2 ok

disk
hotexit trace 1
life 1
name file:///a
w0 outside file:///a 5000 =one => written
w0 open file:///a => opened 5000 3
w0 edit file:///a 3 0 =! => edited 2
w0 outside file:///a 9000 =other => written
w0 save file:///a => started 2
s0 flush file:///a => modified 9000 5
w0 save file:///a over => started 2
s0 flush file:///a => check 9000 5
s0 flush file:///a => saved 2 6000 4
q quit => quit
end script
copy file:///a version 2 clean backup none
ticket 5 modified
ticket 7 saved 2
> not 9 s0 flush file:///a => check 9000 5
> file one!

disk
hotexit trace 1
life 1
name file:///a
w0 outside file:///a 5000 =one => written
w0 open file:///a => opened 5000 3
w0 edit file:///a 3 0 =! => edited 2
w0 outside file:///a 9000 =other => written
w0 save file:///a => started 2
s0 flush file:///a => modified 9000 5
end script
copy file:///a version 2 dirty backup none
ticket 5 modified
> file other

disk
hotexit trace 1
life 1
name file:///a
w0 outside file:///a 5000 =one => written
w0 open file:///a => opened 5000 3
w0 edit file:///a 3 0 =! => edited 2
w0 outside file:///a 4000 =other => written
w0 save file:///a => started 2
s0 flush file:///a => check 4000 5
s0 flush file:///a => saved 2 6000 4
end script
copy file:///a version 2 clean backup none
ticket 5 saved 2
> not 9 s0 flush file:///a => modified 4000 5
> file one!

disk
hotexit trace 1
life 1
name file:///a
w0 create file:///a => created 1
w0 edit file:///a 0 0 =a => edited 2
w0 save file:///a => started 2
w0 edit file:///a 0 0 =b => edited 3
w0 save file:///a => queued
w0 edit file:///a 0 0 =c => edited 4
w0 save file:///a => queued
w0 edit file:///a 0 0 =d => edited 5
w0 save file:///a => queued
s0 flush file:///a => check none
s0 flush file:///a => saved 2 2000 1
s0 flush file:///a => check 2000 1
s0 flush file:///a => saved 5 4000 4
end script
copy file:///a version 5 clean backup none
ticket 3 saved 2
ticket 5 saved 5
ticket 7 saved 5
ticket 9 saved 5
> not 16 s0 flush file:///a => saved 4 4000 4
> file dcba

disk
hotexit trace 1
life 1
name file:///a
w0 create file:///a => created 1
w0 edit file:///a 0 0 =a => edited 2
w0 save file:///a => started 2
w0 edit file:///a 0 0 =b => edited 3
w0 save file:///a => queued
w0 edit file:///a 0 0 =c => edited 4
w0 save file:///a => queued
w0 edit file:///a 0 0 =d => edited 5
w0 save file:///a => queued
s0 flush file:///a => check none
s0 flush file:///a => saved 2 2000 1
end script
copy file:///a version 5 dirty backup none
ticket 3 saved 2
ticket 5 none
ticket 7 none
ticket 9 none
> file a

disk
hotexit trace 1
life 1
name file:///a
w0 create file:///a => created 1
w0 edit file:///a 0 0 =a => edited 2
w0 save file:///a => started 2
w0 save file:///a => joined
s0 flush file:///a => check none
s0 flush file:///a => saved 2 2000 1
w0 save file:///a => clean
w0 save file:///a force => started 2
s0 flush file:///a => check 2000 1
s0 flush file:///a => saved 2 4000 1
s0 flush file:///a => idle
end script
copy file:///a version 2 clean backup none
ticket 3 saved 2
ticket 4 saved 2
ticket 7 clean
ticket 8 saved 2
> not 7 w0 save file:///a => queued

disk
hotexit trace 1
life 1
name file:///a
w0 create file:///a => created 1
w0 edit file:///a 0 0 =a => edited 2
b0 vault file:///a => prepare 2 ok
b0 vault file:///a => body 2 ok
b0 vault file:///a => open 2 ok
w0 save file:///a => started 2
s0 flush file:///a => check none
w0 edit file:///a 0 0 =b => edited 3
s0 flush file:///a => saved 2 5000 1
b0 vault file:///a => prepare 3 ok
b0 vault file:///a => body 3 ok
b0 vault file:///a => open 3 ok
q quit => quit
end script
copy file:///a version 3 dirty backup 3
ticket 6 saved 2
> not 16 q quit => vetoed file:///a
> file a

disk
hotexit trace 1
life 1
name file:///a
w0 create file:///a => created 1
w0 edit file:///a 0 0 =hello => edited 2
b0 vault file:///a => prepare 2 ok
b0 vault file:///a => body 2 ok
b0 vault file:///a => open 2 ok
w0 edit file:///a 5 0 =! => edited 3
b0 vault file:///a => prepare 3 ok
b0 vault file:///a => body 3 ok
b0 vault file:///a => open 3 ok
w0 close file:///a => closed
b0 vault file:///a => fade ok
b0 vault file:///a => drop ok
b0 vault file:///a => idle
end script
> not 14 b0 vault file:///a => drop ok

disk
fail 271
hotexit trace 1
life 1
name file:///a
w0 create file:///a => created 1
w0 edit file:///a 0 0 =hello => edited 2
b0 vault file:///a => prepare 2 ok
b0 vault file:///a => body 2 ok
b0 vault file:///a => open 2 ok
w0 edit file:///a 5 0 =! => edited 3
b0 vault file:///a => prepare 3 ok
b0 vault file:///a => body 3 ok
b0 vault file:///a => open 3 ok
w0 close file:///a => closed
b0 vault file:///a => fade ok
b0 vault file:///a => drop fault
end script
> not 15 b0 vault file:///a => fade fault
> crash 0 pair 0 restored file:///a none =hello!

disk
fail 268
hotexit trace 1
life 1
name file:///a
w0 create file:///a => created 1
w0 edit file:///a 0 0 =hello => edited 2
b0 vault file:///a => prepare 2 ok
b0 vault file:///a => body 2 ok
b0 vault file:///a => open 2 ok
w0 edit file:///a 5 0 =! => edited 3
b0 vault file:///a => prepare 3 ok
b0 vault file:///a => body 3 ok
b0 vault file:///a => open 3 fault
end crash 1
copy file:///a version 3 dirty backup 2
life 2
name file:///a
pair 0 restored file:///a none =hello!
q quit => quit
end script
copy file:///a version 1 dirty backup 1

disk
fail 268
hotexit trace 1
life 1
name file:///a
w0 create file:///a => created 1
w0 edit file:///a 0 0 =hello => edited 2
b0 vault file:///a => prepare 2 ok
b0 vault file:///a => body 2 ok
b0 vault file:///a => open 2 ok
w0 edit file:///a 5 0 =! => edited 3
b0 vault file:///a => prepare 3 ok
b0 vault file:///a => body 3 ok
b0 vault file:///a => open 3 fault
w0 edit file:///a 6 0 =? => edited 4
b0 vault file:///a => prepare 4 ok
end script
copy file:///a version 4 dirty backup 2
> not 13 w0 edit file:///a 6 0 =? => edited 5
> crash 1 pair 0 restored file:///a none =hello

disk
fuse 264
hotexit trace 1
life 1
name file:///a
w0 create file:///a => created 1
w0 edit file:///a 0 0 =hello => edited 2
b0 vault file:///a => prepare 2 ok
b0 vault file:///a => body 2 ok
b0 vault file:///a => open 2 ok
w0 edit file:///a 5 0 =! => edited 3
b0 vault file:///a => prepare 3 ok
b0 vault file:///a => body 3 fault
b0 vault file:///a => idle
end script
copy file:///a version 3 dirty backup 2
> not 12 b0 vault file:///a => body 3 ok
> crash 2 pair 0 restored file:///a none =hello

disk
fuse 257
hotexit trace 1
life 1
name file:///a
w0 create file:///a => created 1
w0 edit file:///a 0 0 =hello => edited 2
b0 vault file:///a => prepare 2 fault
b0 vault file:///a => idle
b0 vault file:///a => idle
end script
copy file:///a version 2 dirty backup none
> not 7 b0 vault file:///a => prepare 2 ok
> crash 3

disk
hotexit trace 1
life 1
name file:///a
w1 outside file:///a 5000 =one => written
w0 open file:///a => opened 5000 3
w0 edit file:///a 0 0 =x => edited 2
b0 vault file:///a => prepare 2 ok
b0 vault file:///a => body 2 ok
b0 vault file:///a => open 2 ok
end crash 1
copy file:///a version 2 dirty backup 2
life 2
name file:///a
pair 0 restored file:///a 5000 3 =xone
w1 outside file:///a 9000 =longer => written
w0 save file:///a => started 1
s0 flush file:///a => modified 9000 6
end script
copy file:///a version 1 dirty backup 1
ticket 2 modified
> not 7 b0 vault file:///a => prepare 1 ok
> not 16 w0 save file:///a => started 2

disk
slot 1 =%01%FF%FF%FF%FF%FF%FF%FF%FF%00%00%00%1Dfile:///a%20{\"typeId\":\"\"}%0Ahello
hotexit trace 1
life 1
name file:///a
pair 0 restored file:///a none =hello
w0 edit file:///a 0 0 =x => edited 2
b0 vault file:///a => spent
q quit => vetoed file:///a
end script
copy file:///a version 2 dirty backup 1
> not 7 q quit => quit
> crash 0 pair 0 restored file:///a none =hello

disk
slot 1 =%01%00%00%00%00%00%00%00%01%00%00%00%1Dfile:///a%20{\"typeId\":\"\"}%0Ahello
hotexit trace 1
life 1
name file:///a
pair 0 restored file:///a none =hello
w0 edit file:///a 0 0 =x => edited 2
b0 vault file:///a => prepare 2 ok
b0 vault file:///a => body 2 ok
b0 vault file:///a => open 2 ok
end crash 0
copy file:///a version 2 dirty backup 2
life 2
name file:///a
pair 0 restored file:///a none =xhello
end script
copy file:///a version 1 dirty backup 1

hotexit trace 1
life 1
name file:///a
w1 outside file:///a 1 =x => written
w0 open file:///a => opened 1 524288
w0 edit file:///a 524288 0 = => edited 2
w0 edit file:///a 0 0 =y => toolarge
w0 edit file:///a 0 1 =y => edited 3
w0 edit file:///a 1 18446744073709551615 = => outofcontent
end script
copy file:///a version 3 dirty backup none
> not 6 w0 edit file:///a 524288 0 = => edited 3

disk
fail 265
hotexit trace 1
life 1
name file:///a
w0 outside file:///a 500 =one => written
w0 open file:///a => opened 500 3
w0 edit file:///a 3 0 =! => edited 2
w0 save file:///a => started 2
s0 flush file:///a => check 500 3
s0 flush file:///a => write 2 fault
w0 save file:///a => started 2
s0 flush file:///a => modified 3000 4
w0 save file:///a over => started 2
s0 flush file:///a => check 3000 4
s0 flush file:///a => saved 2 5000 4
end script
copy file:///a version 2 clean backup none
ticket 4 fault
ticket 7 modified
ticket 9 saved 2
> not 11 s0 flush file:///a => check 3000 4
> file one!

disk
fail 258
hotexit trace 1
life 1
name file:///a
w0 save file:///a => notopen
w0 open file:///a => missing
w0 open file:///a => fault
w0 create file:///a => created 1
w0 create file:///a => alreadyopen
w0 save file:///a force => started 1
w0 close file:///a => saving
end script
copy file:///a version 1 clean backup none
ticket 6 none
> not 8 w0 create file:///a => created 2

disk
hotexit trace 1
life 1
name file:///a
w0 create file:///a => created 1
w0 edit file:///a 0 0 =a => edited 2
w0 edit file:///a 1 0 =b => edited 3
w0 undo file:///a => undone 4
w0 undo file:///a => undone 5
w0 undo file:///a => noundo
w0 redo file:///a => redone 6
w0 edit file:///a 1 0 =c => edited 7
w0 redo file:///a => noredo
b0 vault file:///a => prepare 7 ok
b0 vault file:///a => body 7 ok
b0 vault file:///a => open 7 ok
q quit => quit
end script
copy file:///a version 7 dirty backup 7
> not 9 w0 undo file:///a => undone 6
> crash 0 pair 0 restored file:///a none =ac

disk
hotexit trace 1
life 1
name file:///a
w0 create file:///a => created 1
w0 edit file:///a 0 0 =hello => edited 2
b0 vault file:///a => prepare 2 ok
b0 vault file:///a => body 2 ok
b0 vault file:///a => open 2 ok
w0 undo file:///a => undone 3
b0 vault file:///a => fade ok
b0 vault file:///a => drop ok
end script
copy file:///a version 3 clean backup none
> not 10 b0 vault file:///a => prepare 3 ok
> crash 1

disk
hotexit trace 1
life 1
name file:///a
w0 create file:///a => created 1
w0 edit file:///a 0 0 =a => edited 2
w0 save file:///a => started 2
s0 flush file:///a => check none
s0 flush file:///a => saved 2 2000 1
w0 edit file:///a 1 0 =b => edited 3
w0 undo file:///a => undone 4
w0 save file:///a => clean
end script
copy file:///a version 4 clean backup none
ticket 3 saved 2
ticket 8 clean
> not 11 w0 save file:///a => started 4

disk
hotexit trace 1
life 1
name file:///a
w0 create file:///a => created 1
w0 edit file:///a 0 0 =a => edited 2
w0 save file:///a => started 2
s0 flush file:///a => check none
w0 undo file:///a => undone 3
s0 flush file:///a => saved 2 2000 1
w0 save file:///a => clean
end script
copy file:///a version 3 clean backup none
ticket 3 saved 2
ticket 7 clean
> not 10 w0 save file:///a => started 3

disk
hotexit trace 1
life 1
name file:///a
w0 create file:///a => created 1
w0 edit file:///a 0 0 =a => edited 2
w0 save file:///a => started 2
w0 undo file:///a => undone 3
w0 redo file:///a => redone 4
w0 save file:///a => queued
s0 flush file:///a => check none
s0 flush file:///a => saved 2 2000 1
s0 flush file:///a => check 2000 1
s0 flush file:///a => saved 4 4000 1
end script
copy file:///a version 4 clean backup none
ticket 3 saved 2
ticket 6 saved 4
> not 9 w0 save file:///a => joined

disk
hotexit trace 1
life 1
name file:///a
w0 outside file:///a 5000 =one => written
w0 open file:///a => opened 5000 3
w0 edit file:///a 3 0 =! => edited 2
w0 outside file:///a 9000 =two => written
w0 save file:///a => started 2
s0 flush file:///a => check 9000 3
s0 flush file:///a => saved 2 6000 4
q quit => quit
end script
copy file:///a version 2 clean backup none
ticket 5 saved 2
> not 9 s0 flush file:///a => modified 9000 3
> file one!

disk
hotexit trace 1
life 1
name file:///a
w0 create file:///a => created 1
w0 edit file:///a 0 0 =hello => edited 2
b0 vault file:///a => prepare 2 ok
b0 vault file:///a => body 2 ok
b0 vault file:///a => open 2 ok
w0 edit file:///a 5 0 =! => edited 3
b0 vault file:///a => prepare 3 ok
b0 vault file:///a => body 3 ok
b0 vault file:///a => open 3 ok
w0 close file:///a => closed
b0 vault file:///a => fade ok
end crash 0
life 2
name file:///a
pair 0 restored file:///a none =hello!
q quit => quit
end script
copy file:///a version 1 dirty backup 1
> not 14 b0 vault file:///a => drop ok
> crash 1 pair 0 restored file:///a none =hello!
> crash 2 pair 0 restored file:///a none =hello!
> crash 3 pair 0 restored file:///a none =hello!

guarded
hotexit trace 1
life 1
name file:///a
w0 create file:///a => created 1
w0 edit file:///a 0 0 =a => edited 2
w0 save file:///a => started 2
s0 flush file:///a => check none
s0 flush file:///a => idle
b0 vault file:///a => prepare 2 ok
b0 vault file:///a => body 2 ok
b0 vault file:///a => open 2 ok
s0 flush file:///a => saved 2 5000 1
b0 vault file:///a => fade ok
b0 vault file:///a => drop ok
end script
copy file:///a version 2 clean backup none
ticket 3 saved 2
> file a

guarded
fuse 264
hotexit trace 1
life 1
name file:///a
w0 create file:///a => created 1
w0 edit file:///a 0 0 =a => edited 2
w0 save file:///a => started 2
s0 flush file:///a => check none
s0 flush file:///a => idle
b0 vault file:///a => prepare 2 ok
b0 vault file:///a => body 2 ok
b0 vault file:///a => open 2 ok
s0 flush file:///a => write 2 fault
end crash 2
copy file:///a version 2 dirty backup 2
ticket 3 fault
life 2
name file:///a
pair 0 restored file:///a none =a
end script
copy file:///a version 1 dirty backup 1
";
