//! Texts, and what is said of them.

/// A study of one cell: two trials of five processes, of which one crashes.
pub(super) const PLAN: &str =
    r#"{"copies":1,"dead":"silent","f":[1],"faults":"crash","h":[1],"implicit":true,"k":[1],"l":[1],"liars":0,"links":0,"nodes":5,"repeats":2,"seed":"0000000000000000000000000000000000000000000000000000000000000000","version":1}"#;

/// The same study as a plan of version 2.
pub(super) const PLAN_2: &str =
    r#"{"copies":1,"dead":"silent","deaf":0,"f":[1],"h":[1],"implicit":true,"k":[1],"l":[1],"liars":0,"links":0,"nodes":5,"repeats":2,"seed":"0000000000000000000000000000000000000000000000000000000000000000","version":2}"#;

/// Parts of the plan and what stands in their place, and below them the explanations of the texts, which are plans.
///
/// A trial has 5 keys for its processes, and 4 receivers with an alert each, or with two where there are two rings; where
/// two fail, 3 receivers with two alerts or four, and of nine processes 7. The canonical texts have 221, 213, 227 and then
/// 223 or 221 bytes. A checkpoint has 46 more, and 105 or 113 for each piece. A quorum can lack one of five processes, and
/// two of nine. As many faults as processes are not too many. With four links there are five alerts, which is one for each
/// process, and of two processes a link gives two. In the last plan 8 receivers have 1 + 1 + 1 + 2 alerts three times on each
/// ring, or 7 receivers 2 + 2 + 1 + 2; its text has 224 bytes.
pub(super) const PLANS: &str =
    r#""h":[1],"implicit":true,"k":[1],"l":[1]|"h":[1],"implicit":true,"k":[1],"l":[1]
accepted
cells 1
trials 2
quorum 4
keys drawn: at most 18
checkpoint: at most 372 bytes, in pieces of 16 trials
---
"h":[1],"implicit":true,"k":[1],"l":[1]|"h":[1,3],"implicit":true,"k":[9],"k":[1,2],"l":[1,2]
accepted
cells 2
trials 4
quorum 4
h 3: in no cell, since no l and k have l <= 3 <= k
l 2: in no cell, since no h and k have 2 <= h <= k
keys drawn: at most 44
checkpoint: at most 483 bytes, in pieces of 16 trials
k: stands 2 times in the text; the last one counts
---
"f":[1]|"f":[1,2]
accepted
cells 2
trials 4
quorum 4
right: 0 in 1 of 2 cells, where l = h, so that each proposal has one member, and two fail or more
decided and right: 0 in 1 of 2 cells, where more than 1 fail, so that no quorum is left
keys drawn: at most 40
checkpoint: at most 479 bytes, in pieces of 16 trials
---
"f":[1],"faults":"crash","h":[1],"implicit":true,"k":[1]|"f":[2],"faults":"crash","h":[2],"implicit":true,"k":[2]
accepted
cells 1
trials 2
quorum 4
decided and right: 0 in 1 of 1 cells, where more than 1 fail, so that no quorum is left
keys drawn: at most 34
checkpoint: at most 372 bytes, in pieces of 16 trials
---
"f":[1],"faults":"crash","h":[1],"implicit":true,"k":[1],"l":[1],"liars":0,"links":0,"nodes":5|"f":[2],"faults":"crash","h":[1],"implicit":true,"k":[1],"l":[1],"liars":0,"links":0,"nodes":9
accepted
cells 1
trials 2
quorum 7
right: 0 in 1 of 1 cells, where l = h, so that each proposal has one member, and two fail or more
keys drawn: at most 46
checkpoint: at most 372 bytes, in pieces of 16 trials
---
"f":[1]|"f":[0,1]
accepted
cells 2
trials 4
quorum 4
right: 0 in 1 of 2 cells, where none fails, and each proposal has a member
keys drawn: at most 28
checkpoint: at most 479 bytes, in pieces of 16 trials
---
"links":0|"links":4
accepted
cells 1
trials 2
quorum 4
keys drawn: at most 50
checkpoint: at most 372 bytes, in pieces of 16 trials
---
"f":[1],"faults":"crash","h":[1],"implicit":true,"k":[1],"l":[1],"liars":0,"links":0,"nodes":5|"f":[0],"faults":"crash","h":[1],"implicit":true,"k":[1],"l":[1],"liars":0,"links":1,"nodes":2
accepted
cells 1
trials 2
quorum 2
right: 0 in 1 of 1 cells, where none fails, and each proposal has a member
keys drawn: at most 12
checkpoint: at most 372 bytes, in pieces of 16 trials
---
"copies":1,"dead":"silent","f":[1],"faults":"crash","h":[1],"implicit":true,"k":[1],"l":[1],"liars":0,"links":0,"nodes":5|"copies":3,"dead":"silent","f":[1,2],"faults":"deaf","h":[2],"implicit":true,"k":[2,3],"l":[1],"liars":1,"links":2,"nodes":9
accepted
cells 4
trials 8
quorum 7
keys drawn: at most 2742
checkpoint: at most 690 bytes, in pieces of 16 trials"#;

/// The same of edits of the plan of version 2.
///
/// Of nine processes one or three fail, of which one is deaf: on a ring there are at most 1 + 1 or 3 + 1 alerts by them, one
/// by the liar and one for the link. So 8 receivers have 4 alerts twice on each of two rings, or 6 receivers 6. The text has
/// 216 bytes, and a cell's 17 trials are two pieces.
pub(super) const PLANS_2: &str = r#""copies":1|"copies":1
accepted
cells 1
trials 2
quorum 4
keys drawn: at most 18
checkpoint: at most 372 bytes, in pieces of 16 trials
---
"copies":1,"dead":"silent","deaf":0,"f":[1],"h":[1],"implicit":true,"k":[1],"l":[1],"liars":0,"links":0,"nodes":5,"repeats":2|"copies":2,"dead":"silent","deaf":1,"f":[1,3],"h":[2],"implicit":true,"k":[2],"l":[1],"liars":1,"links":1,"nodes":9,"repeats":17
accepted
cells 2
trials 34
quorum 7
decided and right: 0 in 1 of 2 cells, where more than 2 fail, so that no quorum is left
keys drawn: at most 4930
checkpoint: at most 714 bytes, in pieces of 16 trials"#;

/// The same of texts in which a field is wrong, or some are wrong together. With every number of rings and every
/// watermark there are as many cells as ways to choose 3 of 34.
pub(super) const WRONG_PLANS: &str = r#""repeats"|"repeat"
refused: 3 UnknownField
"repeat": no field of a plan; did you mean repeats?
repeats: missing; expected a whole number from 1 to 1000000
---
"liars"|"speed":"\n","Liers"
refused: 3 UnknownField
"Liers": no field of a plan; did you mean liars?
"speed": no field of a plan; did you mean seed?
liars: missing; expected a whole number from 0 to 2048
---
"dead":"silent"|"delay":"silent"
refused: 3 UnknownField
"delay": no field of a plan
dead: missing; expected "silent" or "speak"
---
"copies":1|"a\u2028b\u202e\"\\\n":1,"copies":1
refused: 3 UnknownField
"a\u{2028}b\u{202e}\"\\\n": no field of a plan
---
"dead":"silent"|"dead":"silent\u2029\u0085"
refused: 6 OutOfRange dead
dead: found the text "silent\u{2029}\u{85}"; expected "silent" or "speak"
---
"faults":"crash"|"deaf":0
refused: 3 UnknownField
deaf: a field of version 2; this plan is read as version 1
faults: missing; expected "crash" or "deaf"
---
"version":1|"version":2
refused: 3 UnknownField
faults: a field of version 1; this plan is read as version 2
deaf: missing; expected a whole number from 0 to 2048
---
,"version":1|
refused: 4 MissingField version
version: missing; expected a whole number from 1 to 2
---
"repeats":2|"repeats":"20"
refused: 5 WrongKind repeats
repeats: found the text "20"; expected a whole number from 1 to 1000000
---
"repeats":2|"repeats":0
refused: 6 OutOfRange repeats
repeats: found 0; expected a whole number from 1 to 1000000
---
"nodes":5|"nodes":5.0
refused: 5 WrongKind nodes
nodes: found 5.0, with a point, an exponent or too many digits; expected a whole number from 2 to 2048
---
"copies":1|"copies":-1
refused: 5 WrongKind copies
copies: found -1; expected a whole number from 1 to 4
---
"implicit":true|"implicit":"yes"
refused: 5 WrongKind implicit
implicit: found the text "yes"; expected true or false
---
"dead":"silent"|"dead":null
refused: 5 WrongKind dead
dead: found null; expected "silent" or "speak"
---
"dead":"silent"|"dead":"Silent"
refused: 6 OutOfRange dead
dead: found the text "Silent"; expected "silent" or "speak"
---
"seed":"00|"seed":"0
refused: 6 OutOfRange seed
seed: found a text of 63 characters; expected a text of 64 hexadecimal digits
---
"seed":"00|"seed":"0x
refused: 6 OutOfRange seed
seed: character 2 is no such digit; expected a text of 64 hexadecimal digits
---
"k":[1]|"k":1
refused: 5 WrongKind k
k: found 1; expected a strictly rising list of whole numbers from 1 to 32
---
"k":[1]|"k":[]
refused: 6 OutOfRange k
k: found an empty list; expected a strictly rising list of whole numbers from 1 to 32
---
"h":[1]|"h":[1,"2",33]
refused: 5 WrongKind h
h: element 2 of 3 is the text "2", the first of 2 wrong ones; expected a strictly rising list of whole numbers from 1 to 32
---
"l":[1]|"l":[40,1]
refused: 6 OutOfRange l
l: element 1 of 2 is 40; expected a strictly rising list of whole numbers from 1 to 32
l: element 2 is 1, after 40; expected a strictly rising list of whole numbers from 1 to 32
---
"l":[1]|"l":[1,1]
refused: 7 NotRising l
l: element 2 is 1, after 1; expected a strictly rising list of whole numbers from 1 to 32
---
"f":[1]|"f":[5]
refused: 6 OutOfRange f
f: element 1 of 1 is 5; expected a strictly rising list of whole numbers below nodes, 5
---
"h":[1]|"h":[2]
refused: 8 NoCell
each h is above each k: the least h is 2, the greatest k 1; expected some l <= h <= k
---
"l":[1]|"l":[2]
refused: 8 NoCell
each l is above each h: the least l is 2, the greatest h 1; expected some l <= h <= k
---
"h":[1],"implicit":true,"k":[1],"l":[1]|"h":[1,9],"implicit":true,"k":[5],"l":[3]
refused: 8 NoCell
no h is from 3, the least l, to 5, the greatest k; expected some l <= h <= k
---
"links":0|"links":5
refused: 9 TooManyFaults
1 failed, 0 liars and 5 links are 6; expected at most nodes, 5
---
"h":[1],"implicit":true,"k":[1],"l":[1]|"h":[1,2,3,4,5,6,7,8,9,10,11,12,13,14,15,16,17,18,19,20,21,22,23,24,25,26,27,28,29,30,31,32],"implicit":true,"k":[1,2,3,4,5,6,7,8,9,10,11,12,13,14,15,16,17,18,19,20,21,22,23,24,25,26,27,28,29,30,31,32],"l":[1,2,3,4,5,6,7,8,9,10,11,12,13,14,15,16,17,18,19,20,21,22,23,24,25,26,27,28,29,30,31,32]
refused: 10 TooManyTrials
5984 combinations of k, h and l, each with 1 f, are 5984 cells; expected at most 4096"#;

/// What is said after the first line of texts that are no JSON, and below it the text.
pub(super) const MISTAKES: &str = r#"line 1, column 1: the text is empty

---
line 1, column 13: the text ends here, and a bracket is not closed
{"k": [1, 2]
---
line 3, column 1: a closing bracket after a comma; JSON has none there
{
  "k": [1],
}
---
line 2, column 3: a comment; JSON has none
{
  // rings
  "k": [1]
}
---
line 1, column 2: a single quote; expected double quotes
{'k': [1]}
---
line 1, column 11: a number that begins with a needless zero
{"nodes": 05}
---
line 1, column 11: a number that begins with a point
{"nodes": .5}
---
line 1, column 11: a number that begins with a plus sign
{"nodes": +5}
---
line 1, column 11: a number that JSON does not have
{"nodes": 5.}
---
line 1, column 16: the number before this is too large
{"nodes": 1e999}
---
line 1, column 14: a word without double quotes; JSON has only true, false and null
{"implicit": True}
---
line 1, column 2: a word without double quotes; JSON has only true, false and null
{nodes: 5}
---
line 2, column 2: a comma or a colon is missing before this
{"k": [1]
 "h": [1]}
---
line 1, column 6: a comma or a colon is missing before this
{"k" [1]}
---
line 1, column 7: a value is missing before this
{"k": }
---
line 1, column 10: a comma; expected a key or a value
{"k": [1,,2]}
---
line 1, column 12: the value ends before this, and nothing may follow it
{"k": [1]} x
---
line 1, column 10: a text that is not closed on its line, or has a wrong escape
{"seed": "00
"}
---
line 1, column 10: the text ends inside the double quotes that begin here
{"seed": "00"#;
