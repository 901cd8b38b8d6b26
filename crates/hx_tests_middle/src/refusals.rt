//! Texts that are no scripts and no traces: for which command a script is read, or that it is a trace, the first bad line, the
//! reason, and the text, with `;` for each line feed. `@` stands for `hotexit 1;file a;` and `&` for
//! `hotexit trace 1;life 1;name a;pair 5 twin 0;`; and what stands behind the last `|` is repeated as often as the number before it says.

pub const REFUSALS: &str = "\
Replay 1 Header:\x20
Replay 1 Header: ;
Replay 1 Header: hotexit 0;
Replay 1 NoEnd: hotexit 1
Replay 2 Form: hotexit 1;hotexit 1;
Replay 2 Form: hotexit 1;;
Replay 2 Form: hotexit 1;w9;x
Replay 3 NoEnd: hotexit 1;file a;w0 create a
Replay 3 Declared: hotexit 1;file a;file a;
Replay 2 Resource: hotexit 1;file a\x7F;
Replay 2 Resource: hotexit 1;w0 open a;
Replay 4 Place: hotexit 1;file a;w0 open a;file b;
Replay 3 Place: hotexit 1;restart;slot 0 =;
Replay 3 Form: @w8 open a;
Replay 3 Form: @b4 vault a;
Replay 3 Form: @s0 vault a;
Replay 3 Form: @b0 flush a;
Replay 3 Form: @v0 open a;
Replay 3 Form: @w0  open a;
Replay 3 Form: @w0 open a ;
Replay 3 Form: @w0 save a over force;
Replay 3 Form: @q quit now;
Replay 3 Form: @crash;
Replay 3 Number: @slot 128 =;
Replay 3 Number: @slot 01 x;
Replay 3 Escape: @slot 1 x;
Replay 3 Number: @crash 18446744073709551616;
Replay 3 Number: @w0 edit a 00 0 =;
Replay 3 Escape: @w0 edit a 0 0 =%G1;
Replay 3 Resource: @w0 edit b x 0 y;
Replay 3 Number: @w0 edit a x 0 y;
Restore 3 Form: @w0 open;
Restore 3 Place: @w0 open b;
Run 3 Place: @b0 vault a;
Run 3 Place: @v0 revert a;
Run 3 Place: @crash x;
Run 3 Escape: @w0 outside a 1 a;
Replay 33 TooMany: hotexit 1;|32|restart;
Replay 10001 TooMany: hotexit 1;|10000|q quit;
Replay 2 NoEnd: hotexit 1;file |143|aaaaaaa
trace 1 Header:\x20
trace 1 Header: hotexit 1;
trace 200001 TooMany: hotexit trace 1;life 1;|199999|q quit\tquit;
trace 2 Form: hotexit trace 1;
trace 2 NoEnd: hotexit trace 1;life 1
trace 2 Place: hotexit trace 1;name a;
trace 2 Number: hotexit trace 1;life 2;
trace 3 Form: hotexit trace 1;life 1;
trace 3 Place: hotexit trace 1;life 1;life 2;
trace 4 Declared: hotexit trace 1;life 1;name a;name a;
trace 3 Resource: hotexit trace 1;life 1;name a\tb;
trace 4 Place: hotexit trace 1;life 1;end script;q quit\tquit;
trace 4 Number: hotexit trace 1;life 1;end script;life 02;
trace 5 Place: hotexit trace 1;life 1;end script;ticket 1 clean;copy a version 1 dirty backup none;
trace 4 Number: hotexit trace 1;life 1;end script;life 1;end script;
trace 17 NoEnd: hotexit trace 1;life 1;name a;w0 create a\tcreated 1;w0 edit a 0 0 =hello\tedited 2;b0 vault a\tprepare 2 ok;b0 vault a\tbody 2 ok;b0 vault a\topen 2 ok;q quit\tquit;end restart;copy a version 2 dirty backup 2;life 2;name a;pair 0 restored a 5000 3 =hello;end script;copy a version 1 dirty backup 1;ticket 1 saved 2
trace 5 Form: &hotexit trace 1;
trace 5 Place: &name b\tc;
trace 5 Form: &crash 1\tquit;
trace 5 Form: &file b\tquit;
trace 5 Form: &q quit quit;
trace 5 Form: &w0 edit a 0 0 =x\ty\tedited 2;
trace 5 Form: &w0 open a\tunguarded 2;
trace 5 Form: &w0 open a\topened 1;
trace 5 Resource: &w0 open b\topened x 1;
trace 5 Number: &w0 open a\topened x 1;
trace 5 Resource: &q quit\tvetoed a\tb;
trace 5 Form: &v0 open a\topened 1 1;
trace 5 Place: &copy a version 1 dirty backup none;
trace 5 Form: &copy a version 1 dirty;
trace 5 Form: &ticket 1 unguarded;
trace 5 Place: &pair 5 damaged;
trace 5 Number: &pair x damaged;
trace 5 Number: &pair 64 damaged;
trace 5 Number: &pair 6 twin 64;
trace 5 Form: &pair 6 restored a x =;
trace 5 Resource: &pair 6 restored b none =;
trace 5 Number: &pair 6 restored a 1 x =;
trace 5 Escape: &pair 6 restored a none x;
trace 5 Form: &end crash;
trace 5 Number: &end crash x;";
