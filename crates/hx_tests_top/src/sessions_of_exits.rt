//! Sessions worked by hand that ask what comes of the end of a script: the words behind `$`, the script's lines behind `>`, and behind
//! `<` what is to be printed.

pub const EXITS: &str = "\
$ exit onExit close
> hotexit 1
> file file:///a
> w0 create file:///a
> w0 edit file:///a 0 0 =hello
> b0 vault file:///a
> b0 vault file:///a
> b0 vault file:///a
< confirm file:///a
$ exit onExit close last
> hotexit 1
> file file:///a
> w0 create file:///a
> w0 edit file:///a 0 0 =hello
> b0 vault file:///a
> b0 vault file:///a
> b0 vault file:///a
< close
$ exit onExit close last mac
> hotexit 1
> file file:///a
> w0 create file:///a
> w0 edit file:///a 0 0 =hello
> b0 vault file:///a
> b0 vault file:///a
> b0 vault file:///a
< confirm file:///a
$ exit onExitAndWindowClose close folder
> hotexit 1
> file file:///a
> w0 create file:///a
> w0 edit file:///a 0 0 =hello
> b0 vault file:///a
> b0 vault file:///a
> b0 vault file:///a
< close
$ exit off quit
> hotexit 1
> file file:///a
> w0 create file:///a
> w0 edit file:///a 0 0 =hello
> b0 vault file:///a
> b0 vault file:///a
> b0 vault file:///a
< confirm file:///a
$ --fail 257 exit onExit quit
> hotexit 1
> file file:///a
> w0 create file:///a
> w0 edit file:///a 0 0 =hello
> b0 vault file:///a
> b0 vault file:///a
> b0 vault file:///a
< confirm file:///a
$ exit off quit
> hotexit 1
> file file:///a
> w0 create file:///a
< close
$ exit off close last folder mac
> hotexit 1
> file file:///a
> w0 create file:///a
< close
$ exit onExit quit
> hotexit 1
> file file:///a
> w0 create file:///a
> w0 edit file:///a 0 0 =hello
> b0 vault file:///a
> b0 vault file:///a
> b0 vault file:///a
> crash 1
< close
$ exit off quit
> hotexit 1
> file file:///a
> file file:///b
> w0 create file:///b
> w0 create file:///a
> w0 edit file:///b 0 0 =b
> w0 edit file:///a 0 0 =a
< confirm file:///a
$ exit onExit quit
> hotexit 1
> file file:///a
> w0 nothing file:///a
! 3 line 3: form
";
