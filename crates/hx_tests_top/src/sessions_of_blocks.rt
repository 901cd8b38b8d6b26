//! Sessions worked by hand, with contents of several blocks: the words behind `$`, the script's lines behind `>`, and behind
//! `<` what is to be printed. A line of an entry has a tab in it, and `x*5000` stands for 5,000 times `x`.

pub const BLOCKS: &str = "\
$ replay
> hotexit 1
> file file:///src/main.rs
> w0 outside file:///src/main.rs 500 =x*40000
> w0 open file:///src/main.rs
> w0 edit file:///src/main.rs 100 0 =fix%0A
> w0 edit file:///src/main.rs 200 0 =fix%0A
> w0 edit file:///src/main.rs 300 0 =fix%0A
> w0 edit file:///src/main.rs 400 0 =fix%0A
> w0 edit file:///src/main.rs 500 0 =fix%0A
> w0 edit file:///src/main.rs 600 0 =fix%0A
> b0 vault file:///src/main.rs
> b0 vault file:///src/main.rs
> b0 vault file:///src/main.rs
> b0 vault file:///src/main.rs
> b0 vault file:///src/main.rs
> b0 vault file:///src/main.rs
> b0 vault file:///src/main.rs
> b0 vault file:///src/main.rs
> b0 vault file:///src/main.rs
> b0 vault file:///src/main.rs
> b0 vault file:///src/main.rs
> b0 vault file:///src/main.rs
> w0 save file:///src/main.rs
> s0 flush file:///src/main.rs
> w0 edit file:///src/main.rs 700 0 =fix%0A
> s0 flush file:///src/main.rs
> w0 edit file:///src/main.rs 800 0 =fix%0A
> w0 edit file:///src/main.rs 900 0 =fix%0A
> w0 edit file:///src/main.rs 1000 0 =fix%0A
> w0 edit file:///src/main.rs 1100 0 =fix%0A
> w0 edit file:///src/main.rs 1200 0 =fix%0A
> b0 vault file:///src/main.rs
> b0 vault file:///src/main.rs
> b0 vault file:///src/main.rs
> b0 vault file:///src/main.rs
> b0 vault file:///src/main.rs
> b0 vault file:///src/main.rs
> b0 vault file:///src/main.rs
> b0 vault file:///src/main.rs
> b0 vault file:///src/main.rs
> b0 vault file:///src/main.rs
> b0 vault file:///src/main.rs
> b0 vault file:///src/main.rs
< hotexit trace 1
< life 1
< name file:///src/main.rs
< w0 outside file:///src/main.rs 500 =x*40000\twritten
< w0 open file:///src/main.rs\topened 500 40000
< w0 edit file:///src/main.rs 100 0 =fix%0A\tedited 2
< w0 edit file:///src/main.rs 200 0 =fix%0A\tedited 3
< w0 edit file:///src/main.rs 300 0 =fix%0A\tedited 4
< w0 edit file:///src/main.rs 400 0 =fix%0A\tedited 5
< w0 edit file:///src/main.rs 500 0 =fix%0A\tedited 6
< w0 edit file:///src/main.rs 600 0 =fix%0A\tedited 7
< b0 vault file:///src/main.rs\tprepare 7 ok
< b0 vault file:///src/main.rs\tbody 7 ok
< b0 vault file:///src/main.rs\tbody 7 ok
< b0 vault file:///src/main.rs\tbody 7 ok
< b0 vault file:///src/main.rs\tbody 7 ok
< b0 vault file:///src/main.rs\tbody 7 ok
< b0 vault file:///src/main.rs\tbody 7 ok
< b0 vault file:///src/main.rs\tbody 7 ok
< b0 vault file:///src/main.rs\tbody 7 ok
< b0 vault file:///src/main.rs\tbody 7 ok
< b0 vault file:///src/main.rs\tbody 7 ok
< b0 vault file:///src/main.rs\topen 7 ok
< w0 save file:///src/main.rs\tstarted 7
< s0 flush file:///src/main.rs\tcheck 500 40000
< w0 edit file:///src/main.rs 700 0 =fix%0A\tedited 8
< s0 flush file:///src/main.rs\tsaved 7 16000 40024
< w0 edit file:///src/main.rs 800 0 =fix%0A\tedited 9
< w0 edit file:///src/main.rs 900 0 =fix%0A\tedited 10
< w0 edit file:///src/main.rs 1000 0 =fix%0A\tedited 11
< w0 edit file:///src/main.rs 1100 0 =fix%0A\tedited 12
< w0 edit file:///src/main.rs 1200 0 =fix%0A\tedited 13
< b0 vault file:///src/main.rs\tprepare 13 ok
< b0 vault file:///src/main.rs\tbody 13 ok
< b0 vault file:///src/main.rs\tbody 13 ok
< b0 vault file:///src/main.rs\tbody 13 ok
< b0 vault file:///src/main.rs\tbody 13 ok
< b0 vault file:///src/main.rs\tbody 13 ok
< b0 vault file:///src/main.rs\tbody 13 ok
< b0 vault file:///src/main.rs\tbody 13 ok
< b0 vault file:///src/main.rs\tbody 13 ok
< b0 vault file:///src/main.rs\tbody 13 ok
< b0 vault file:///src/main.rs\tbody 13 ok
< b0 vault file:///src/main.rs\topen 13 ok
< q quit\tquit
< end script
< copy file:///src/main.rs version 13 dirty backup 13
< ticket 21 saved 7
$ replay
> hotexit 1
> file file:///a
> w0 outside file:///a 500 =x*5000
> w0 open file:///a
> w0 edit file:///a 0 0 =y
> b0 vault file:///a
> b0 vault file:///a
> w0 edit file:///a 0 0 =z
> b0 vault file:///a
> b0 vault file:///a
> b0 vault file:///a
< hotexit trace 1
< life 1
< name file:///a
< w0 outside file:///a 500 =x*5000\twritten
< w0 open file:///a\topened 500 5000
< w0 edit file:///a 0 0 =y\tedited 2
< b0 vault file:///a\tprepare 2 ok
< b0 vault file:///a\tbody 2 ok
< w0 edit file:///a 0 0 =z\tedited 3
< b0 vault file:///a\tbody 2 ok
< b0 vault file:///a\topen 2 ok
< b0 vault file:///a\tprepare 3 ok
< q vault file:///a\tbody 3 ok
< q vault file:///a\tbody 3 ok
< q vault file:///a\topen 3 ok
< q quit\tquit
< end script
< copy file:///a version 3 dirty backup 3
$ --fail 267 replay
> hotexit 1
> file file:///a
> w0 outside file:///a 500 =x*5000
> w0 open file:///a
> w0 edit file:///a 0 0 =y
> b0 vault file:///a
> b0 vault file:///a
> b0 vault file:///a
> b0 vault file:///a
> crash 1
< hotexit trace 1
< life 1
< name file:///a
< w0 outside file:///a 500 =x*5000\twritten
< w0 open file:///a\topened 500 5000
< w0 edit file:///a 0 0 =y\tedited 2
< b0 vault file:///a\tprepare 2 ok
< b0 vault file:///a\tbody 2 ok
< b0 vault file:///a\tbody 2 fault
< b0 vault file:///a\tidle
< end crash 1
< copy file:///a version 2 dirty backup none
< life 2
< name file:///a
< q quit\tquit
< end script
";
