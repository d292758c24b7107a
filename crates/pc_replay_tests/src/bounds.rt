// The longest lines, sheets and files, the most lines, as many of a kind as a sheet may have, and formulas of many parts: and one more of
// each. What no table of texts can hold.
use crate::sheets::is_row;
use std::test::Fail;

// Lines, sheets, files and certificates of the size that they may have, and of a byte more; and the most lines.
const SIZES: &str = "\
replay%%sheet 1|begin|show~4092* ~| => Done|
replay%%sheet 1|begin|show~4093* ~| => TooLong|refused 19 too-long|
replay%%sheet 1|begin|~4096*y~ => SomeRefused|refused 2 syntax|
replay%%sheet 1|begin|~4097*y~ => TooLong|refused 19 too-long|
replay%%sheet 1|~4194289*;~|begin|dump => Done|sheet 1|begin|
replay%%sheet 1|~4194290*;~|begin|dump => TooLong|refused 19 too-long|
replay%%sheet 1|begin|~999999*|~dump => Done|sheet 1|begin|
replay%%sheet 1|begin|~999999*|~dump|dump => TooLong|sheet 1|begin|refused 19 too-long|
replay%%sheet 1|begin|~1000001*|~ => TooLong|refused 19 too-long|
edit k.sheet%sheet 1|begin|~4194290*;~%dump => Done|sheet 1|begin|
edit k.sheet%sheet 1|begin|~4194291*;~%dump => TooLong|refused 19 too-long|
check k.sheet%~4194304*;~% => SheetRefused|sheet refused 3 no-begin|
check k.sheet%~4194305*;~% => TooLong|refused 19 too-long|
check k.sheet%sheet 1|begin|%~67108865* ~ => TooLong|refused 19 too-long|
";

#[test]
fn sizes(rt: HostRuntime) -> Result<(), Fail> {
    for row in SIZES.lines() {
        assert!(rt; is_row(rt.alloc(), row)?, "{row}");
    }
    Ok(())
}

// As many of a kind as there may be, and one more, questions among them; formulas of many parts, items and arguments; many entries in
// a sheet; and a roster of eight persons in pairs with entries of which some clash, the last one made many times again.
const COUNTS: &str = "\
replay%%sheet 1|~256#sort s# = v#|~begin| => Done|
replay%%sheet 1|~257#sort s# = v#|~begin| => SheetRefused|sheet refused 11 limit line 258 sorts|
replay%%sheet 1|sort s =~256# v#~|begin| => Done|
replay%%sheet 1|sort s =~257# v#~|begin| => SheetRefused|sheet refused 11 limit line 2 values|
replay%%sheet 1|sort s = a|~256#table t#(s)|~begin| => Done|
replay%%sheet 1|sort s = a|~257#table t#(s)|~begin| => SheetRefused|sheet refused 11 limit line 259 tables|
replay%%sheet 1|sort s = a|~256#cell c# : s|~begin| => Done|
replay%%sheet 1|sort s = a|~257#cell c# : s|~begin| => SheetRefused|sheet refused 11 limit line 259 families|
replay%%sheet 1|~1024#rule r# : 1 = 1|~begin| => Done|
replay%%sheet 1|~1025#rule r# : 1 = 1|~begin| => SheetRefused|sheet refused 11 limit line 1026 rules|
replay%%sheet 1|sort color = red green|cell a : color|~1024#rule r# : a = a|~begin|rule r1 : a = red|rule r1 : a = 1|ask a = red|ask a = blue|drop r1|ask a = red|rule ask : a = a|ask a = red|drop r2|ask a = red|drop ask|ask a = red| => SomeRefused|refused 11 limit rules|refused 8 wrong-sort|refused 11 limit rules|refused 5 unknown-name|ok|not implied|ok|refused 11 limit rules|ok|refused 17 duplicate-rule|ok|not implied|
replay%%sheet 1|sort s = u v|cell a : s|cell b : s|rule r : a=b~19999*&a=b~|begin|show => Done|a : -|b : -|
replay%%sheet 1|sort n = 0 .. 1|cell x : n|rule r : x != 0~99999*-1~|begin|show => Done|x : -|
replay%%sheet 1|sort s = u v|table t(s)|rule r : t(u~99999*,u~)|begin| => SheetRefused|sheet refused 7 wrong-arity line 4|
replay%%sheet 1|sort s = u v|cell c : s|~10000*enter c = v|~begin|dump => Done|sheet 1|sort s = u v|cell c : s|enter c = v|begin|
replay%%sheet 1|sort person = ann bob cho dan eva fay gus hal|sort day = 1 .. 5|sort place = north south|table pair(person, person)|row pair(ann, bob)|row pair(cho, dan)|row pair(eva, fay)|row pair(gus, hal)|cell shift(person) : day|cell room(person) : place|cell lead : person|rule together : forall x:person . forall y:person . pair(x, y) -> shift(x) = shift(y)|rule apart : forall x:person . forall y:person . pair(x, y) -> room(x) != room(y)|rule leads : shift(lead) = 1 & room(lead) = north|rule weekend : forall x:person . shift(x) = 5 -> room(x) = north|begin|enter shift(ann) = 1|enter room(ann) = north|enter shift(bob) = 2|enter shift(cho) = 3|enter room(dan) = north|enter shift(eva) = 4|enter room(eva) = south|enter room(fay) = south|enter shift(gus) = 2|enter shift(hal) = 2|enter room(gus) = north|enter lead = ann|~200000*enter lead = ann|~ => Done|~200012*ok|~
";

#[test]
fn counts(rt: HostRuntime) -> Result<(), Fail> {
    for row in COUNTS.lines() {
        assert!(rt; is_row(rt.alloc(), row)?, "{row}");
    }
    Ok(())
}
