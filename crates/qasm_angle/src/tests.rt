// Angles, with what they are by hand.
use crate::AngleValue::{Eighths, Inexact, NotAngle};
use crate::{AngleReading, AngleValue, angle};
use qasm_lex::{Kind, lex};
use std::alloc::Global;

const ANGLES: [(&[u8], AngleValue); 73] = [
    (b"pi/4+pi", Eighths(5)),
    (b"2*pi/8", Eighths(1)),
    (b"0", Eighths(0)),
    (b"pi/8+pi/8", Inexact),
    (b"+", NotAngle),
    (b"", NotAngle),
    (b"-", NotAngle),
    (b"pi", Eighths(4)),
    (b"+pi", Eighths(4)),
    (b"-pi", Eighths(4)),
    (b"pi/2", Eighths(2)),
    (b"-pi/2", Eighths(6)),
    (b"pi/4", Eighths(1)),
    (b"-pi/4", Eighths(7)),
    (b"+pi/4", Eighths(1)),
    (b"- pi / 4", Eighths(7)),
    (b"3*pi/4", Eighths(3)),
    (b"-3*pi/4", Eighths(5)),
    (b"3*pi/2", Eighths(6)),
    (b"pi*3/4", Eighths(3)),
    (b"pi*3/2", Eighths(6)),
    (b"2*pi", Eighths(0)),
    (b"pi*2", Eighths(0)),
    (b"7*pi/4", Eighths(7)),
    (b"9*pi/4", Eighths(1)),
    (b"pi*9/4", Eighths(1)),
    (b"pi/8", Inexact),
    (b"pi/3", Inexact),
    (b"3*pi/3", Eighths(4)),
    (b"6*pi/8", Eighths(3)),
    (b"pi/0", Inexact),
    (b"0*pi/0", Inexact),
    (b"0*pi/3", Eighths(0)),
    (b"0*pi", Eighths(0)),
    (b"pi*0", Eighths(0)),
    (b"-0", Eighths(0)),
    (b"+0", Eighths(0)),
    (b"000", Eighths(0)),
    (b"000000000", Eighths(0)),
    (b"0000000000", NotAngle),
    (b"1", NotAngle),
    (b"0+0", Eighths(0)),
    (b"0-pi/4", Eighths(7)),
    (b"pi/4-0", Eighths(1)),
    (b"0/4", NotAngle),
    (b"pi/4-pi/2", Eighths(7)),
    (b"pi-pi/4", Eighths(3)),
    (b"-pi-pi/4-pi/4", Eighths(2)),
    (b"pi+pi+pi/4", Eighths(1)),
    (b"pi/4+pi/4+pi/4+pi/4+pi/4+pi/4+pi/4+pi/4+pi/4", Eighths(1)),
    (b"-pi/4-pi/4-pi/4-pi/4-pi/4-pi/4-pi/4-pi/4-pi/4", Eighths(7)),
    (b"pi/4+pi/8", Inexact),
    (b"pi/8-pi/4", Inexact),
    (b"pi/04", Eighths(1)),
    (b"999999999*pi", Eighths(4)),
    (b"999999999*pi/4", Eighths(7)),
    (b"-999999999*pi/4", Eighths(1)),
    (b"1000000000*pi", NotAngle),
    (b"pi*1000000000", NotAngle),
    (b"pi/1000000000", NotAngle),
    (b"4000*pi/16000", Eighths(1)),
    (b"0.25*pi", NotAngle),
    (b"0.0", NotAngle),
    (b"pi/4.0", NotAngle),
    (b"--pi", NotAngle),
    (b"+-pi", NotAngle),
    (b"pi+", NotAngle),
    (b"pi/4-", NotAngle),
    (b"pi pi", NotAngle),
    (b"3*4*pi", NotAngle),
    (b"pi/4/2", NotAngle),
    (b"(pi)", NotAngle),
    (b"PI", NotAngle),
];

/// What the tokens of a text are, if it has tokens.
fn value_of(alloc: Global, text: &[u8]) -> Option<AngleValue> {
    match lex(alloc, text) {
        Ok(tokens) => Some(angle(text, &tokens)),
        Err(_) => None,
    }
}

/// The tokens of each text are the angle beside it.
#[test]
fn tokens_are_angles(rt: HostRuntime) {
    for (text, value) in &ANGLES {
        assert_eq!(rt; value_of(rt.alloc(), text), Some(*value), "in {text:?}");
    }
}

/// A reading that takes a text's tokens one by one ends at the value that `angle` gives.
#[test]
fn readings_go_token_by_token(rt: HostRuntime) {
    let reading = AngleReading::new();
    assert_eq!(rt; reading.value(), NotAngle);
    let reading = reading.behind(Kind::Other, b"-").behind(Kind::Ident, b"pi");
    assert_eq!(rt; reading.value(), Eighths(4));
    let reading = reading.behind(Kind::Other, b"/").behind(Kind::Number, b"4");
    assert_eq!(rt; reading.value(), Eighths(7));
    assert_eq!(rt; reading.behind(Kind::Semi, b";").value(), NotAngle);
}
