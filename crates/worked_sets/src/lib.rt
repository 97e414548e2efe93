//! Parameter sets of the worked examples, and larger ones of many shapes, as files for tests and benchmarks. Proofs know
//! nothing of a text but that it is one.
#![tactic(auto)]

mod call_sets;
mod shaped_sets;

pub use call_sets::calls;
pub use shaped_sets::{Shape, shaped};

/// Two commodities with futures, an option, a spread in each way, and a collateral class.
pub fn one() -> &'static str {
    "H,1,ONE\n\
G,AAA,25\n\
G,BBB,0\n\
M,AAA,1,1\n\
M,AAA,2,2\n\
M,BBB,1,1\n\
K,AAA1,AAA,1,F,F,10000,0,0,0,-100,-100,100,100,-200,-200,200,200,-300,-300,300,300,-210,210\n\
K,AAA2,AAA,2,F,F,10000,0,0,0,-90,-90,90,90,-180,-180,180,180,-270,-270,270,270,-189,189\n\
K,AAAC,AAA,1,C,P,5000,60,-10,12,-70,-50,40,50,-140,-120,52,58,-220,-205,57,60,-160,20\n\
K,BBB1,BBB,1,F,F,10000,0,0,0,-50,-50,50,50,-100,-100,100,100,-150,-150,150,150,-105,105\n\
S,AAA,1,10000,2,10000,40\n\
I,5000,AAA,A,10000,BBB,B,20000\n\
V,BILL,9950,300\n"
}

/// One future.
pub fn fut() -> &'static str {
    "H,1,FUT\n\
G,AAA,0\n\
M,AAA,1,1\n\
K,AAA1,AAA,1,F,F,10000,0,0,0,-100,-100,100,100,-200,-200,200,200,-300,-300,300,300,-210,210\n"
}

/// Each loss twice that of the first set.
pub fn two() -> &'static str {
    "H,1,TWO\n\
G,AAA,25\n\
G,BBB,0\n\
M,AAA,1,1\n\
M,AAA,2,2\n\
M,BBB,1,1\n\
K,AAA1,AAA,1,F,F,10000,0,0,0,-200,-200,200,200,-400,-400,400,400,-600,-600,600,600,-420,420\n\
K,AAA2,AAA,2,F,F,10000,0,0,0,-180,-180,180,180,-360,-360,360,360,-540,-540,540,540,-378,378\n\
K,AAAC,AAA,1,C,P,5000,60,-20,24,-140,-100,80,100,-280,-240,104,116,-440,-410,114,120,-320,40\n\
K,BBB1,BBB,1,F,F,10000,0,0,0,-100,-100,100,100,-200,-200,200,200,-300,-300,300,300,-210,210\n\
S,AAA,1,10000,2,10000,40\n\
I,5000,AAA,A,10000,BBB,B,20000\n\
V,BILL,9950,300\n"
}

/// A spread with a ratio of 3.
pub fn odd() -> &'static str {
    "H,1,ODD\n\
G,AAA,25\n\
G,BBB,0\n\
M,AAA,1,1\n\
M,AAA,2,2\n\
M,BBB,1,1\n\
K,AAA1,AAA,1,F,F,10000,0,0,0,-100,-100,100,100,-200,-200,200,200,-300,-300,300,300,-210,210\n\
K,AAA2,AAA,2,F,F,10000,0,0,0,-90,-90,90,90,-180,-180,180,180,-270,-270,270,270,-189,189\n\
K,AAAC,AAA,1,C,P,5000,60,-10,12,-70,-50,40,50,-140,-120,52,58,-220,-205,57,60,-160,20\n\
K,BBB1,BBB,1,F,F,10000,0,0,0,-50,-50,50,50,-100,-100,100,100,-150,-150,150,150,-105,105\n\
S,AAA,1,30000,2,10000,40\n\
I,5000,AAA,A,10000,BBB,B,20000\n\
V,BILL,9950,300\n"
}

/// Two months in one tier, and a spread of the tier with itself.
pub fn flat() -> &'static str {
    "H,1,FLAT\n\
G,AAA,25\n\
G,BBB,0\n\
M,AAA,1,1\n\
M,AAA,2,1\n\
M,BBB,1,1\n\
K,AAA1,AAA,1,F,F,10000,0,0,0,-100,-100,100,100,-200,-200,200,200,-300,-300,300,300,-210,210\n\
K,AAA2,AAA,2,F,F,10000,0,0,0,-90,-90,90,90,-180,-180,180,180,-270,-270,270,270,-189,189\n\
K,AAAC,AAA,1,C,P,5000,60,-10,12,-70,-50,40,50,-140,-120,52,58,-220,-205,57,60,-160,20\n\
K,BBB1,BBB,1,F,F,10000,0,0,0,-50,-50,50,50,-100,-100,100,100,-150,-150,150,150,-105,105\n\
S,AAA,1,10000,1,10000,40\n\
I,5000,AAA,A,10000,BBB,B,20000\n\
V,BILL,9950,300\n"
}

/// A credit above the scan risk.
pub fn neg() -> &'static str {
    "H,1,NEG\n\
G,AAA,25\n\
G,BBB,0\n\
M,AAA,1,1\n\
M,AAA,2,2\n\
M,BBB,1,1\n\
K,AAA1,AAA,1,F,F,10000,0,-200,-200,-100,-100,100,100,-200,-200,200,200,-300,-300,300,300,-210,210\n\
K,AAA2,AAA,2,F,F,10000,0,0,0,-90,-90,90,90,-180,-180,180,180,-270,-270,270,270,-189,189\n\
K,AAAC,AAA,1,C,P,5000,60,-10,12,-70,-50,40,50,-140,-120,52,58,-220,-205,57,60,-160,20\n\
K,BBB1,BBB,1,F,F,10000,0,0,0,-50,-50,50,50,-100,-100,100,100,-150,-150,150,150,-105,105\n\
S,AAA,1,10000,2,10000,40\n\
I,10000,AAA,A,10000,BBB,B,20000\n\
V,BILL,9950,300\n"
}

/// A contract that gains in each scenario.
pub fn win() -> &'static str {
    "H,1,WIN\n\
G,AAA,25\n\
G,BBB,0\n\
M,AAA,1,1\n\
M,AAA,2,2\n\
M,BBB,1,1\n\
K,AAA1,AAA,1,F,F,10000,0,-5,-5,-5,-5,-5,-5,-5,-5,-5,-5,-5,-5,-5,-5,-5,-5\n\
K,AAA2,AAA,2,F,F,10000,0,0,0,-90,-90,90,90,-180,-180,180,180,-270,-270,270,270,-189,189\n\
K,AAAC,AAA,1,C,P,5000,60,-10,12,-70,-50,40,50,-140,-120,52,58,-220,-205,57,60,-160,20\n\
K,BBB1,BBB,1,F,F,10000,0,0,0,-50,-50,50,50,-100,-100,100,100,-150,-150,150,150,-105,105\n\
S,AAA,1,10000,2,10000,40\n\
I,5000,AAA,A,10000,BBB,B,20000\n\
V,BILL,9950,300\n"
}

/// A spot month charge.
pub fn spot() -> &'static str {
    "H,2,SPOT\n\
G,AAA,25\n\
G,BBB,0\n\
M,AAA,1,1\n\
M,AAA,2,2\n\
M,BBB,1,1\n\
K,AAA1,AAA,1,F,F,10000,0,0,0,-100,-100,100,100,-200,-200,200,200,-300,-300,300,300,-210,210\n\
K,AAA2,AAA,2,F,F,10000,0,0,0,-90,-90,90,90,-180,-180,180,180,-270,-270,270,270,-189,189\n\
K,AAAC,AAA,1,C,P,5000,60,-10,12,-70,-50,40,50,-140,-120,52,58,-220,-205,57,60,-160,20\n\
K,BBB1,BBB,1,F,F,10000,0,0,0,-50,-50,50,50,-100,-100,100,100,-150,-150,150,150,-105,105\n\
S,AAA,1,10000,2,10000,40\n\
I,5000,AAA,A,10000,BBB,B,20000\n\
V,BILL,9950,300\n\
T,AAA,1,30,50\n"
}

/// A spot month charge beside a spread with a ratio of 3.
pub fn spodd() -> &'static str {
    "H,2,SPODD\n\
G,AAA,25\n\
G,BBB,0\n\
M,AAA,1,1\n\
M,AAA,2,2\n\
M,BBB,1,1\n\
K,AAA1,AAA,1,F,F,10000,0,0,0,-100,-100,100,100,-200,-200,200,200,-300,-300,300,300,-210,210\n\
K,AAA2,AAA,2,F,F,10000,0,0,0,-90,-90,90,90,-180,-180,180,180,-270,-270,270,270,-189,189\n\
K,AAAC,AAA,1,C,P,5000,60,-10,12,-70,-50,40,50,-140,-120,52,58,-220,-205,57,60,-160,20\n\
K,BBB1,BBB,1,F,F,10000,0,0,0,-50,-50,50,50,-100,-100,100,100,-150,-150,150,150,-105,105\n\
S,AAA,1,30000,2,10000,40\n\
I,5000,AAA,A,10000,BBB,B,20000\n\
V,BILL,9950,300\n\
T,AAA,1,30,50\n"
}

/// A future whose largest losses stand in the two extreme scenarios, and two collateral classes.
pub fn extreme() -> &'static str {
    "H,1,EXTREME\n\
G,AAA,0\n\
G,BBB,0\n\
M,AAA,1,1\n\
M,BBB,1,1\n\
K,AAA1,AAA,1,F,F,10000,0,10,-20,-100,-100,100,100,-200,-200,200,200,-300,-300,300,300,-450,500\n\
K,BBB1,BBB,1,F,F,10000,0,0,0,-50,-50,50,50,-100,-100,100,100,-150,-150,150,150,-105,105\n\
I,5000,AAA,A,10000,BBB,B,20000\n\
V,BILL,9950,300\n\
V,NOTE,101,5000\n"
}

/// Spreads of three and of four commodities.
pub fn legs() -> &'static str {
    "H,1,LEGS\n\
G,AAA,0\n\
G,BBB,0\n\
G,CCC,0\n\
G,DDD,0\n\
M,AAA,1,1\n\
M,BBB,1,1\n\
M,CCC,1,1\n\
M,DDD,1,1\n\
K,AAA1,AAA,1,F,F,10000,0,0,0,-33,-33,33,33,-67,-67,67,67,-100,-100,100,100,-70,70\n\
K,BBB1,BBB,1,F,F,10000,0,0,0,-66,-66,66,66,-133,-133,133,133,-200,-200,200,200,-140,140\n\
K,CCC1,CCC,1,F,F,10000,0,0,0,-100,-100,100,100,-200,-200,200,200,-300,-300,300,300,-210,210\n\
K,DDD1,DDD,1,F,F,10000,0,0,0,-16,-16,16,16,-33,-33,33,33,-50,-50,50,50,-35,35\n\
I,4000,AAA,A,10000,BBB,A,5000,CCC,B,20000\n\
I,6000,AAA,A,20000,BBB,B,10000,CCC,B,10000,DDD,A,30000\n"
}

/// Two spreads that share a commodity.
pub fn shared() -> &'static str {
    "H,1,SHARED\n\
G,AAA,0\n\
G,BBB,0\n\
G,CCC,0\n\
M,AAA,1,1\n\
M,BBB,1,1\n\
M,CCC,1,1\n\
K,AAA1,AAA,1,F,F,10000,0,1,2,-33,-33,33,33,-67,-67,67,67,-101,-101,101,101,-70,70\n\
K,BBB1,BBB,1,F,F,10000,0,0,0,-66,-66,66,66,-133,-133,133,133,-200,-200,200,200,-140,140\n\
K,CCC1,CCC,1,F,F,10000,0,0,0,-100,-100,100,100,-200,-200,200,200,-300,-300,300,300,-210,210\n\
I,5000,AAA,A,10000,BBB,B,10000\n\
I,5000,AAA,A,10000,CCC,B,10000\n"
}

/// Three tiers, two of them with two months, and spreads of unequal ratios. No price moves.
pub fn tiers() -> &'static str {
    "H,2,TIERS\n\
G,AAA,0\n\
M,AAA,1,1\n\
M,AAA,2,1\n\
M,AAA,3,2\n\
M,AAA,4,2\n\
M,AAA,5,3\n\
K,AAA1,AAA,1,F,F,10000,0,0,0,0,0,0,0,0,0,0,0,0,0,0,0,0,0\n\
K,AAA2,AAA,2,F,F,10000,0,0,0,0,0,0,0,0,0,0,0,0,0,0,0,0,0\n\
K,AAA3,AAA,3,F,F,10000,0,0,0,0,0,0,0,0,0,0,0,0,0,0,0,0,0\n\
K,AAA4,AAA,4,F,F,10000,0,0,0,0,0,0,0,0,0,0,0,0,0,0,0,0,0\n\
K,AAA5,AAA,5,F,F,10000,0,0,0,0,0,0,0,0,0,0,0,0,0,0,0,0,0\n\
S,AAA,1,20000,2,30000,50\n\
S,AAA,2,10000,3,10000,70\n\
T,AAA,1,30,7\n"
}

/// A call that is paid for at once and a put that is margined like the future, and a put on another commodity.
pub fn options() -> &'static str {
    "H,1,OPTIONS\n\
G,AAA,25\n\
G,BBB,7\n\
M,AAA,1,1\n\
M,BBB,1,1\n\
K,AAA1,AAA,1,F,F,10000,0,0,0,-100,-100,100,100,-200,-200,200,200,-300,-300,300,300,-210,210\n\
K,AAAC,AAA,1,C,P,5000,60,-10,12,-70,-50,40,50,-140,-120,52,58,-220,-205,57,60,-160,20\n\
K,AAAP,AAA,1,P,F,-5000,0,0,0,50,50,-50,-50,100,100,-100,-100,150,150,-150,-150,105,-105\n\
K,BBBP,BBB,1,P,P,-5000,11,0,0,5,5,-5,-5,10,10,-9,-9,15,15,-10,-10,11,-11\n"
}

/// Two futures of the first set in another order, and its class at another price.
pub fn rev() -> &'static str {
    "H,1,REV\n\
G,BBB,0\n\
G,AAA,0\n\
M,BBB,1,1\n\
M,AAA,1,1\n\
K,BBB1,BBB,1,F,F,10000,0,0,0,-50,-50,50,50,-100,-100,100,100,-150,-150,150,150,-105,105\n\
K,AAA1,AAA,1,F,F,10000,0,0,0,-100,-100,100,100,-200,-200,200,200,-300,-300,300,300,-210,210\n\
V,BILL,5000,0\n"
}

/// A collateral class alone.
pub fn bills() -> &'static str {
    "H,1,BILLS\n\
V,BILL,9950,300\n"
}

/// Three tiers, where the second spread meets what the first one leaves. It has no contracts.
pub fn three_tiers() -> &'static str {
    "H,1,CHAIN\n\
G,AAA,0\n\
M,AAA,1,1\n\
M,AAA,2,2\n\
M,AAA,3,3\n\
S,AAA,1,10000,2,10000,40\n\
S,AAA,2,10000,3,10000,70\n"
}

/// Three commodities, where the second spread meets what the first one leaves. It has no contracts.
pub fn three_commodities() -> &'static str {
    "H,1,CHAIN\n\
G,AAA,0\n\
G,BBB,0\n\
G,CCC,0\n\
I,5000,AAA,A,10000,BBB,B,10000\n\
I,10000,BBB,A,10000,CCC,B,10000\n"
}

/// Legs whose amounts and credits are rounded. It has no contracts.
pub fn odd_legs() -> &'static str {
    "H,1,ODD\n\
G,AAA,0\n\
G,BBB,0\n\
I,5000,AAA,A,30000,BBB,B,10000\n"
}
