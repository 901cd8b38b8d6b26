//! Sessions worked by hand, of backups, undos, restarts and traces: the words behind `$`, the script's lines behind `>`, and behind `<`
//! what is to be printed. A line of an entry has a tab in it.

pub const BACKUPS: &str = "\
$ replay
> hotexit 1
< hotexit trace 1
< life 1
< q quit\tquit
< end script
$ replay
> hotexit 1
> file file:///a
> w0 create file:///a
> w0 edit file:///a 0 0 =hello
> b0 vault file:///a
> b0 vault file:///a
> b0 vault file:///a
> restart
< hotexit trace 1
< life 1
< name file:///a
< w0 create file:///a\tcreated 1
< w0 edit file:///a 0 0 =hello\tedited 2
< b0 vault file:///a\tprepare 2 ok
< b0 vault file:///a\tbody 2 ok
< b0 vault file:///a\topen 2 ok
< q quit\tquit
< end restart
< copy file:///a version 2 dirty backup 2
< life 2
< name file:///a
< pair 0 restored file:///a none =hello
< q quit\tquit
< end script
< copy file:///a version 1 dirty backup 1
$ --fuse 267 replay
> hotexit 1
> file file:///a
> w0 create file:///a
> w0 edit file:///a 0 0 =hello
> b0 vault file:///a
> b0 vault file:///a
> b0 vault file:///a
> w0 edit file:///a 5 0 =!
> b0 vault file:///a
> b0 vault file:///a
> b0 vault file:///a
> crash 0
< hotexit trace 1
< life 1
< name file:///a
< w0 create file:///a\tcreated 1
< w0 edit file:///a 0 0 =hello\tedited 2
< b0 vault file:///a\tprepare 2 ok
< b0 vault file:///a\tbody 2 ok
< b0 vault file:///a\topen 2 ok
< w0 edit file:///a 5 0 =!\tedited 3
< b0 vault file:///a\tprepare 3 ok
< b0 vault file:///a\tbody 3 ok
< b0 vault file:///a\topen 3 fault
< end crash 0
< copy file:///a version 3 dirty backup 2
< life 2
< name file:///a
< pair 0 restored file:///a none =hello
< q quit\tquit
< end script
< copy file:///a version 1 dirty backup 1
$ --fuse 267 replay
> hotexit 1
> file file:///a
> w0 create file:///a
> w0 edit file:///a 0 0 =hello
> b0 vault file:///a
> b0 vault file:///a
> b0 vault file:///a
> w0 edit file:///a 5 0 =!
> b0 vault file:///a
> b0 vault file:///a
> b0 vault file:///a
> crash 1
< hotexit trace 1
< life 1
< name file:///a
< w0 create file:///a\tcreated 1
< w0 edit file:///a 0 0 =hello\tedited 2
< b0 vault file:///a\tprepare 2 ok
< b0 vault file:///a\tbody 2 ok
< b0 vault file:///a\topen 2 ok
< w0 edit file:///a 5 0 =!\tedited 3
< b0 vault file:///a\tprepare 3 ok
< b0 vault file:///a\tbody 3 ok
< b0 vault file:///a\topen 3 fault
< end crash 1
< copy file:///a version 3 dirty backup 2
< life 2
< name file:///a
< pair 0 restored file:///a none =hello!
< q quit\tquit
< end script
< copy file:///a version 1 dirty backup 1
$ replay
> hotexit 1
> file file:///a
> w0 create file:///a
> w0 edit file:///a 0 0 =hello
> b0 vault file:///a
> b0 vault file:///a
> b0 vault file:///a
> w0 edit file:///a 5 0 =!
> b0 vault file:///a
> b0 vault file:///a
> b0 vault file:///a
> w0 close file:///a
> b0 vault file:///a
> crash 0
< hotexit trace 1
< life 1
< name file:///a
< w0 create file:///a\tcreated 1
< w0 edit file:///a 0 0 =hello\tedited 2
< b0 vault file:///a\tprepare 2 ok
< b0 vault file:///a\tbody 2 ok
< b0 vault file:///a\topen 2 ok
< w0 edit file:///a 5 0 =!\tedited 3
< b0 vault file:///a\tprepare 3 ok
< b0 vault file:///a\tbody 3 ok
< b0 vault file:///a\topen 3 ok
< w0 close file:///a\tclosed
< b0 vault file:///a\tfade ok
< end crash 0
< life 2
< name file:///a
< pair 0 restored file:///a none =hello!
< q quit\tquit
< end script
< copy file:///a version 1 dirty backup 1
$ replay
> hotexit 1
> file file:///a
> w0 create file:///a
> w0 edit file:///a 0 0 =hello
> b0 vault file:///a
> b0 vault file:///a
> b0 vault file:///a
> w0 edit file:///a 5 0 =!
> b0 vault file:///a
> b0 vault file:///a
> b0 vault file:///a
> w0 close file:///a
> b0 vault file:///a
> b0 vault file:///a
> crash 1
< hotexit trace 1
< life 1
< name file:///a
< w0 create file:///a\tcreated 1
< w0 edit file:///a 0 0 =hello\tedited 2
< b0 vault file:///a\tprepare 2 ok
< b0 vault file:///a\tbody 2 ok
< b0 vault file:///a\topen 2 ok
< w0 edit file:///a 5 0 =!\tedited 3
< b0 vault file:///a\tprepare 3 ok
< b0 vault file:///a\tbody 3 ok
< b0 vault file:///a\topen 3 ok
< w0 close file:///a\tclosed
< b0 vault file:///a\tfade ok
< b0 vault file:///a\tdrop ok
< end crash 1
< life 2
< name file:///a
< q quit\tquit
< end script
$ --fail 271 replay
> hotexit 1
> file file:///a
> w0 create file:///a
> w0 edit file:///a 0 0 =hello
> b0 vault file:///a
> b0 vault file:///a
> b0 vault file:///a
> w0 edit file:///a 5 0 =!
> b0 vault file:///a
> b0 vault file:///a
> b0 vault file:///a
> w0 close file:///a
> b0 vault file:///a
> b0 vault file:///a
> crash 0
< hotexit trace 1
< life 1
< name file:///a
< w0 create file:///a\tcreated 1
< w0 edit file:///a 0 0 =hello\tedited 2
< b0 vault file:///a\tprepare 2 ok
< b0 vault file:///a\tbody 2 ok
< b0 vault file:///a\topen 2 ok
< w0 edit file:///a 5 0 =!\tedited 3
< b0 vault file:///a\tprepare 3 ok
< b0 vault file:///a\tbody 3 ok
< b0 vault file:///a\topen 3 ok
< w0 close file:///a\tclosed
< b0 vault file:///a\tfade ok
< b0 vault file:///a\tdrop fault
< end crash 0
< life 2
< name file:///a
< pair 0 restored file:///a none =hello!
< q quit\tquit
< end script
< copy file:///a version 1 dirty backup 1
$ replay
> hotexit 1
> file file:///a
> slot 1 =%01%FF%FF%FF%FF%FF%FF%FF%FF%00%00%00%1Dfile:///a%20{\"typeId\":\"\"}%0Ahello
> w0 edit file:///a 0 0 =x
> b0 vault file:///a
< hotexit trace 1
< life 1
< name file:///a
< pair 0 restored file:///a none =hello
< w0 edit file:///a 0 0 =x\tedited 2
< b0 vault file:///a\tspent
< q quit\tvetoed file:///a
< end script
< copy file:///a version 2 dirty backup 1
$ --fuse 264 replay
> hotexit 1
> file file:///a
> w0 create file:///a
> w0 edit file:///a 0 0 =hello
> b0 vault file:///a
> b0 vault file:///a
> b0 vault file:///a
> w0 edit file:///a 5 0 =!
> b0 vault file:///a
> b0 vault file:///a
> b0 vault file:///a
> crash 2
< hotexit trace 1
< life 1
< name file:///a
< w0 create file:///a\tcreated 1
< w0 edit file:///a 0 0 =hello\tedited 2
< b0 vault file:///a\tprepare 2 ok
< b0 vault file:///a\tbody 2 ok
< b0 vault file:///a\topen 2 ok
< w0 edit file:///a 5 0 =!\tedited 3
< b0 vault file:///a\tprepare 3 ok
< b0 vault file:///a\tbody 3 fault
< b0 vault file:///a\tidle
< end crash 2
< copy file:///a version 3 dirty backup 2
< life 2
< name file:///a
< pair 0 restored file:///a none =hello
< q quit\tquit
< end script
< copy file:///a version 1 dirty backup 1
$ --fuse 257 replay
> hotexit 1
> file file:///a
> w0 create file:///a
> w0 edit file:///a 0 0 =hello
> b0 vault file:///a
> b0 vault file:///a
> b0 vault file:///a
> crash 3
< hotexit trace 1
< life 1
< name file:///a
< w0 create file:///a\tcreated 1
< w0 edit file:///a 0 0 =hello\tedited 2
< b0 vault file:///a\tprepare 2 fault
< b0 vault file:///a\tidle
< b0 vault file:///a\tidle
< end crash 3
< copy file:///a version 2 dirty backup none
< life 2
< name file:///a
< q quit\tquit
< end script
$ --fail 268 replay
> hotexit 1
> file file:///a
> w0 create file:///a
> w0 edit file:///a 0 0 =hello
> b0 vault file:///a
> b0 vault file:///a
> b0 vault file:///a
> w0 edit file:///a 5 0 =!
> b0 vault file:///a
> b0 vault file:///a
> b0 vault file:///a
> crash 1
< hotexit trace 1
< life 1
< name file:///a
< w0 create file:///a\tcreated 1
< w0 edit file:///a 0 0 =hello\tedited 2
< b0 vault file:///a\tprepare 2 ok
< b0 vault file:///a\tbody 2 ok
< b0 vault file:///a\topen 2 ok
< w0 edit file:///a 5 0 =!\tedited 3
< b0 vault file:///a\tprepare 3 ok
< b0 vault file:///a\tbody 3 ok
< b0 vault file:///a\topen 3 fault
< end crash 1
< copy file:///a version 3 dirty backup 2
< life 2
< name file:///a
< pair 0 restored file:///a none =hello!
< q quit\tquit
< end script
< copy file:///a version 1 dirty backup 1
$ --fail 268 replay
> hotexit 1
> file file:///a
> w0 create file:///a
> w0 edit file:///a 0 0 =hello
> b0 vault file:///a
> b0 vault file:///a
> b0 vault file:///a
> w0 edit file:///a 5 0 =!
> b0 vault file:///a
> b0 vault file:///a
> b0 vault file:///a
> w0 edit file:///a 6 0 =?
> b0 vault file:///a
> crash 1
< hotexit trace 1
< life 1
< name file:///a
< w0 create file:///a\tcreated 1
< w0 edit file:///a 0 0 =hello\tedited 2
< b0 vault file:///a\tprepare 2 ok
< b0 vault file:///a\tbody 2 ok
< b0 vault file:///a\topen 2 ok
< w0 edit file:///a 5 0 =!\tedited 3
< b0 vault file:///a\tprepare 3 ok
< b0 vault file:///a\tbody 3 ok
< b0 vault file:///a\topen 3 fault
< w0 edit file:///a 6 0 =?\tedited 4
< b0 vault file:///a\tprepare 4 ok
< end crash 1
< copy file:///a version 4 dirty backup 2
< life 2
< name file:///a
< pair 0 restored file:///a none =hello
< q quit\tquit
< end script
< copy file:///a version 1 dirty backup 1
$ replay
> hotexit 1
> file file:///a
> w0 create file:///a
> w0 edit file:///a 0 0 =a
> w0 edit file:///a 1 0 =b
> w0 undo file:///a
> w0 undo file:///a
> w0 undo file:///a
> w0 redo file:///a
> w0 edit file:///a 1 0 =c
> w0 redo file:///a
< hotexit trace 1
< life 1
< name file:///a
< w0 create file:///a\tcreated 1
< w0 edit file:///a 0 0 =a\tedited 2
< w0 edit file:///a 1 0 =b\tedited 3
< w0 undo file:///a\tundone 4
< w0 undo file:///a\tundone 5
< w0 undo file:///a\tnoundo
< w0 redo file:///a\tredone 6
< w0 edit file:///a 1 0 =c\tedited 7
< w0 redo file:///a\tnoredo
< q vault file:///a\tprepare 7 ok
< q vault file:///a\tbody 7 ok
< q vault file:///a\topen 7 ok
< q quit\tquit
< end script
< copy file:///a version 7 dirty backup 7
$ replay
> hotexit 1
> file file:///a
> w0 create file:///a
> w0 edit file:///a 0 0 =hello
> b0 vault file:///a
> b0 vault file:///a
> b0 vault file:///a
> w0 undo file:///a
> b0 vault file:///a
> b0 vault file:///a
> crash 1
< hotexit trace 1
< life 1
< name file:///a
< w0 create file:///a\tcreated 1
< w0 edit file:///a 0 0 =hello\tedited 2
< b0 vault file:///a\tprepare 2 ok
< b0 vault file:///a\tbody 2 ok
< b0 vault file:///a\topen 2 ok
< w0 undo file:///a\tundone 3
< b0 vault file:///a\tfade ok
< b0 vault file:///a\tdrop ok
< end crash 1
< copy file:///a version 3 clean backup none
< life 2
< name file:///a
< q quit\tquit
< end script
$ replay
> hotexit 1
> file file:///a
> slot 1 =%01%00%00%00%00%00%00%00%01%00%00%00%1Dfile:///a%20{\"typeId\":\"\"}%0Ahello
> w0 edit file:///a 0 0 =x
> b0 vault file:///a
> b0 vault file:///a
> b0 vault file:///a
> crash 0
< hotexit trace 1
< life 1
< name file:///a
< pair 0 restored file:///a none =hello
< w0 edit file:///a 0 0 =x\tedited 2
< b0 vault file:///a\tprepare 2 ok
< b0 vault file:///a\tbody 2 ok
< b0 vault file:///a\topen 2 ok
< end crash 0
< copy file:///a version 2 dirty backup 2
< life 2
< name file:///a
< pair 0 restored file:///a none =xhello
< q quit\tquit
< end script
< copy file:///a version 1 dirty backup 1
$ restore
> hotexit 1
> slot 0 =%02%00%00%00%00%00%00%00%01%00%00%00%1Dfile:///a%20{\"typeId\":\"\"}%0Ahello
$ restore
> hotexit 1
> slot 0 =%01%00%00%00%00%00%00%00%01%FF%FF%FF%FF%00%00%00%11r%20{\"typeId\":\"n\"}%0A
< pair 0 damaged
$ restore
> hotexit 1
> slot 0 =%01
> slot 2 =%01%00%00%00%00%00%00%00%00%FF%FF%FF%FF
$ restore
> hotexit 1
> slot 0 =%01%00%00%00%00%00%00%00%01%00%00%00%1Dfile:///a%20{\"typeId\":\"\"}%0Ahello
> slot 1 =%01%00%00%00%00%00%00%00%01%00%00%00%1Dfile:///a%20{\"typeId\":\"\"}%0Ahello
< pair 0 restored file:///a none =hello
$ restore
> hotexit 1
> slot 0 =%01%00%00%00%00%00%00%00%01%00%00%00%1Dfile:///a%20{\"typeId\":\"\"}%0Ahello
> slot 2 =%01%00%00%00%00%00%00%00%01%00%00%00%1Dfile:///a%20{\"typeId\":\"\"}%0Ahello
> slot 4 =%01%00%00%00%00%00%00%00%01%00%00%00%03abc
< pair 0 restored file:///a none =hello
< pair 1 twin 0
< pair 2 damaged
$ check
> hotexit trace 1
> life 1
> name file:///a
> w0 create file:///a\tcreated 1
> w0 edit file:///a 0 0 =hello\tedited 2
> b0 vault file:///a\tprepare 2 ok
> b0 vault file:///a\tbody 2 ok
> b0 vault file:///a\topen 2 ok
> q quit\tquit
> end restart
> copy file:///a version 2 dirty backup 2
> life 2
> name file:///a
> pair 0 restored file:///a none =hello
> q quit\tquit
> end script
> copy file:///a version 1 dirty backup 1
< legal
$ check
> hotexit trace 1
> life 1
> name file:///a
> w0 create file:///a\tcreated 1
> w0 edit file:///a 0 0 =hello\tedited 3
> b0 vault file:///a\tprepare 2 ok
> b0 vault file:///a\tbody 2 ok
> b0 vault file:///a\topen 2 ok
> q quit\tquit
> end restart
> copy file:///a version 2 dirty backup 2
> life 2
> name file:///a
> pair 0 restored file:///a none =hello
> q quit\tquit
> end script
> copy file:///a version 1 dirty backup 1
< not at 5
$ check
> hotexit trace 1
> life 1
> name file:///a
> w0 create file:///a\tcreated 1
> w0 edit file:///a 0 0 =hello\tedited 2
> b0 vault file:///a\tprepare 2 ok
> b0 vault file:///a\tbody 2 ok
> b0 vault file:///a\topen 2 ok
> q quit\tquit
> end restart
> copy file:///a version 2 dirty backup none
> life 2
> name file:///a
> pair 0 restored file:///a none =hello
> q quit\tquit
> end script
> copy file:///a version 1 dirty backup 1
< not at 11
";
