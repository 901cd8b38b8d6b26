//! Sessions worked by hand, in which copies are saved: the words behind `$`, the script's lines behind `>`, and behind `<`
//! what is to be printed. A line of an entry has a tab in it.

pub const SAVES: &str = "\
$ replay
> hotexit 1
> file file:///a
> w0 create file:///a
> w0 edit file:///a 0 0 =a
> b0 vault file:///a
> b0 vault file:///a
> b0 vault file:///a
> w0 save file:///a
> s0 flush file:///a
> w0 edit file:///a 0 0 =b
> s0 flush file:///a
< hotexit trace 1
< life 1
< name file:///a
< w0 create file:///a\tcreated 1
< w0 edit file:///a 0 0 =a\tedited 2
< b0 vault file:///a\tprepare 2 ok
< b0 vault file:///a\tbody 2 ok
< b0 vault file:///a\topen 2 ok
< w0 save file:///a\tstarted 2
< s0 flush file:///a\tcheck none
< w0 edit file:///a 0 0 =b\tedited 3
< s0 flush file:///a\tsaved 2 5000 1
< q vault file:///a\tprepare 3 ok
< q vault file:///a\tbody 3 ok
< q vault file:///a\topen 3 ok
< q quit\tquit
< end script
< copy file:///a version 3 dirty backup 3
< ticket 6 saved 2
$ replay
> hotexit 1
> file file:///a
> w0 outside file:///a 5000 =one
> w0 open file:///a
> w0 edit file:///a 0 0 =x
> b0 vault file:///a
> b0 vault file:///a
> b0 vault file:///a
> crash 1
> w0 outside file:///a 9000 =longer
> w0 save file:///a
> s0 flush file:///a
< hotexit trace 1
< life 1
< name file:///a
< w0 outside file:///a 5000 =one\twritten
< w0 open file:///a\topened 5000 3
< w0 edit file:///a 0 0 =x\tedited 2
< b0 vault file:///a\tprepare 2 ok
< b0 vault file:///a\tbody 2 ok
< b0 vault file:///a\topen 2 ok
< end crash 1
< copy file:///a version 2 dirty backup 2
< life 2
< name file:///a
< pair 0 restored file:///a 5000 3 =xone
< w0 outside file:///a 9000 =longer\twritten
< w0 save file:///a\tstarted 1
< s0 flush file:///a\tmodified 9000 6
< q quit\tquit
< end script
< copy file:///a version 1 dirty backup 1
< ticket 2 modified
$ replay
> hotexit 1
> file file:///a
> w0 outside file:///a 5000 =one
> w0 open file:///a
> w0 edit file:///a 3 0 =!
> w0 outside file:///a 9000 =two
> w0 save file:///a
> s0 flush file:///a
> s0 flush file:///a
< hotexit trace 1
< life 1
< name file:///a
< w0 outside file:///a 5000 =one\twritten
< w0 open file:///a\topened 5000 3
< w0 edit file:///a 3 0 =!\tedited 2
< w0 outside file:///a 9000 =two\twritten
< w0 save file:///a\tstarted 2
< s0 flush file:///a\tcheck 9000 3
< s0 flush file:///a\tsaved 2 6000 4
< q quit\tquit
< end script
< copy file:///a version 2 clean backup none
< ticket 5 saved 2
$ replay
> hotexit 1
> file file:///a
> w0 outside file:///a 5000 =one
> w0 open file:///a
> w0 edit file:///a 3 0 =!
> w0 outside file:///a 4000 =other
> w0 save file:///a
> s0 flush file:///a
> s0 flush file:///a
< hotexit trace 1
< life 1
< name file:///a
< w0 outside file:///a 5000 =one\twritten
< w0 open file:///a\topened 5000 3
< w0 edit file:///a 3 0 =!\tedited 2
< w0 outside file:///a 4000 =other\twritten
< w0 save file:///a\tstarted 2
< s0 flush file:///a\tcheck 4000 5
< s0 flush file:///a\tsaved 2 6000 4
< q quit\tquit
< end script
< copy file:///a version 2 clean backup none
< ticket 5 saved 2
$ replay
> hotexit 1
> file file:///a
> w0 create file:///a
> w0 edit file:///a 0 0 =a
> w0 save file:///a
> w0 edit file:///a 0 0 =b
> w0 save file:///a
> w0 edit file:///a 0 0 =c
> w0 save file:///a
> w0 edit file:///a 0 0 =d
> w0 save file:///a
> s0 flush file:///a
> s0 flush file:///a
> s0 flush file:///a
> s0 flush file:///a
< hotexit trace 1
< life 1
< name file:///a
< w0 create file:///a\tcreated 1
< w0 edit file:///a 0 0 =a\tedited 2
< w0 save file:///a\tstarted 2
< w0 edit file:///a 0 0 =b\tedited 3
< w0 save file:///a\tqueued
< w0 edit file:///a 0 0 =c\tedited 4
< w0 save file:///a\tqueued
< w0 edit file:///a 0 0 =d\tedited 5
< w0 save file:///a\tqueued
< s0 flush file:///a\tcheck none
< s0 flush file:///a\tsaved 2 2000 1
< s0 flush file:///a\tcheck 2000 1
< s0 flush file:///a\tsaved 5 4000 4
< q quit\tquit
< end script
< copy file:///a version 5 clean backup none
< ticket 3 saved 2
< ticket 5 saved 5
< ticket 7 saved 5
< ticket 9 saved 5
$ replay
> hotexit 1
> file file:///a
> w0 create file:///a
> w0 edit file:///a 0 0 =a
> w0 save file:///a
> w0 save file:///a
> s0 flush file:///a
> s0 flush file:///a
> w0 save file:///a
> w0 save file:///a force
> s0 flush file:///a
> s0 flush file:///a
< hotexit trace 1
< life 1
< name file:///a
< w0 create file:///a\tcreated 1
< w0 edit file:///a 0 0 =a\tedited 2
< w0 save file:///a\tstarted 2
< w0 save file:///a\tjoined
< s0 flush file:///a\tcheck none
< s0 flush file:///a\tsaved 2 2000 1
< w0 save file:///a\tclean
< w0 save file:///a force\tstarted 2
< s0 flush file:///a\tcheck 2000 1
< s0 flush file:///a\tsaved 2 4000 1
< q quit\tquit
< end script
< copy file:///a version 2 clean backup none
< ticket 3 saved 2
< ticket 4 saved 2
< ticket 7 clean
< ticket 8 saved 2
$ --fail 265 replay
> hotexit 1
> file file:///a
> w0 outside file:///a 500 =one
> w0 open file:///a
> w0 edit file:///a 3 0 =!
> w0 save file:///a
> s0 flush file:///a
> s0 flush file:///a
> w0 save file:///a
> s0 flush file:///a
> w0 save file:///a over
> s0 flush file:///a
> s0 flush file:///a
< hotexit trace 1
< life 1
< name file:///a
< w0 outside file:///a 500 =one\twritten
< w0 open file:///a\topened 500 3
< w0 edit file:///a 3 0 =!\tedited 2
< w0 save file:///a\tstarted 2
< s0 flush file:///a\tcheck 500 3
< s0 flush file:///a\twrite 2 fault
< w0 save file:///a\tstarted 2
< s0 flush file:///a\tmodified 3000 4
< w0 save file:///a over\tstarted 2
< s0 flush file:///a\tcheck 3000 4
< s0 flush file:///a\tsaved 2 5000 4
< q quit\tquit
< end script
< copy file:///a version 2 clean backup none
< ticket 4 fault
< ticket 7 modified
< ticket 9 saved 2
$ replay
> hotexit 1
> file file:///a
> w0 create file:///a
> w0 edit file:///a 0 0 =a
> w0 save file:///a
> s0 flush file:///a
> s0 flush file:///a
> w0 edit file:///a 1 0 =b
> w0 undo file:///a
> w0 save file:///a
< hotexit trace 1
< life 1
< name file:///a
< w0 create file:///a\tcreated 1
< w0 edit file:///a 0 0 =a\tedited 2
< w0 save file:///a\tstarted 2
< s0 flush file:///a\tcheck none
< s0 flush file:///a\tsaved 2 2000 1
< w0 edit file:///a 1 0 =b\tedited 3
< w0 undo file:///a\tundone 4
< w0 save file:///a\tclean
< q quit\tquit
< end script
< copy file:///a version 4 clean backup none
< ticket 3 saved 2
< ticket 8 clean
$ replay
> hotexit 1
> file file:///a
> w0 create file:///a
> w0 edit file:///a 0 0 =a
> w0 save file:///a
> s0 flush file:///a
> w0 undo file:///a
> s0 flush file:///a
> w0 save file:///a
< hotexit trace 1
< life 1
< name file:///a
< w0 create file:///a\tcreated 1
< w0 edit file:///a 0 0 =a\tedited 2
< w0 save file:///a\tstarted 2
< s0 flush file:///a\tcheck none
< w0 undo file:///a\tundone 3
< s0 flush file:///a\tsaved 2 2000 1
< w0 save file:///a\tclean
< q quit\tquit
< end script
< copy file:///a version 3 clean backup none
< ticket 3 saved 2
< ticket 7 clean
$ replay
> hotexit 1
> file file:///a
> w0 create file:///a
> w0 edit file:///a 0 0 =a
> w0 save file:///a
> w0 undo file:///a
> w0 redo file:///a
> w0 save file:///a
> s0 flush file:///a
> s0 flush file:///a
> s0 flush file:///a
> s0 flush file:///a
< hotexit trace 1
< life 1
< name file:///a
< w0 create file:///a\tcreated 1
< w0 edit file:///a 0 0 =a\tedited 2
< w0 save file:///a\tstarted 2
< w0 undo file:///a\tundone 3
< w0 redo file:///a\tredone 4
< w0 save file:///a\tqueued
< s0 flush file:///a\tcheck none
< s0 flush file:///a\tsaved 2 2000 1
< s0 flush file:///a\tcheck 2000 1
< s0 flush file:///a\tsaved 4 4000 1
< q quit\tquit
< end script
< copy file:///a version 4 clean backup none
< ticket 3 saved 2
< ticket 6 saved 4
$ replay
> hotexit 1
> file file:///a
> file file:///b
> w0 create file:///a
> w0 create file:///a
> w0 save file:///b
> w0 open file:///b
> w0 save file:///a force
> w0 close file:///a
< hotexit trace 1
< life 1
< name file:///a
< name file:///b
< w0 create file:///a\tcreated 1
< w0 create file:///a\talreadyopen
< w0 save file:///b\tnotopen
< w0 open file:///b\tmissing
< w0 save file:///a force\tstarted 1
< w0 close file:///a\tsaving
< q flush file:///a\tcheck none
< q flush file:///a\tsaved 1 2000 0
< q quit\tquit
< end script
< copy file:///a version 1 clean backup none
< ticket 5 saved 1
$ made 1
< made 1
< entries 27
< edits 3
< backups 3
< drops 0
< saved 0
< modified 0
< idle 5
< faults 0
< restored 3
< dirty 3
";
