//! Texts with and without escapes.

use json_values::{Opening, Scalar, Tokens, next_scalar, open_value, pass_value};
use std::alloc::{AllocError, Global};

/// Returns the whole number at the key `ab` of an object that has only this key.
fn number_of(alloc: Global, text: &str) -> Result<Option<i64>, AllocError> {
    let mut scratch = Vec::new(alloc);
    let mut reader = Tokens::new(text, &mut scratch)?;
    let Ok(Opening::Object) = open_value(&mut reader) else {
        return Ok(None);
    };
    let Ok(Some("ab")) = reader.next_key() else {
        return Ok(None);
    };
    let value = next_scalar(&mut reader, 1);
    match (value, reader.next_key(), reader.next()) {
        (Ok(Scalar::Integer(number)), Ok(None), None) => Ok(Some(number)),
        _ => Ok(None),
    }
}

/// Returns whether the text is one value, whose arrays and objects nest two deep.
fn is_value(alloc: Global, text: &str) -> Result<bool, AllocError> {
    let mut scratch = Vec::new(alloc);
    let mut reader = Tokens::new(text, &mut scratch)?;
    Ok(pass_value(&mut reader, 2).is_ok() && reader.next().is_none())
}

#[test]
fn a_number_is_read_behind_a_key(rt: HostRuntime) -> Result<(), AllocError> {
    let alloc = rt.alloc();
    assert_eq!(rt; number_of(alloc, "{\"ab\":-12}")?, Some(-12));
    assert_eq!(rt; number_of(alloc, " { \"a\\u0062\" :\t-12 }\n")?, Some(-12));
    assert_eq!(rt;
        number_of(alloc, "{\"ab\": 9223372036854775807}")?,
        Some(i64::MAX)
    );
    assert_eq!(rt; number_of(alloc, "{\"ab\": 9223372036854775808}")?, None);
    assert_eq!(rt; number_of(alloc, "{\"ab\": -0}")?, None);
    Ok(())
}

#[test]
fn plain_values_are_passed_over(rt: HostRuntime) -> Result<(), AllocError> {
    let alloc = rt.alloc();
    assert!(rt; is_value(alloc, "[true,false,null,-0.5e+3]")?);
    assert!(rt; is_value(alloc, "\"a name of more than sixteen bytes\"")?);
    assert!(rt; is_value(alloc, "[ [ 1 , 2 ] , { \"a\" : 0 } ]")?);
    Ok(())
}

#[test]
fn escapes_are_read_in_pairs_where_they_have_to_be(rt: HostRuntime) -> Result<(), AllocError> {
    let alloc = rt.alloc();
    assert!(rt; is_value(alloc, "\"\\\"\\\\\\/\\b\\f\\n\\r\\t\"")?);
    assert!(rt; is_value(alloc, "\"\\u00e9 \\ud83d\\ude00 \\uFFFF\"")?);
    assert!(rt; !is_value(alloc, "\"\\ud83d\"")?);
    assert!(rt; !is_value(alloc, "\"\\ude00\\ud83d\"")?);
    assert!(rt; !is_value(alloc, "\"\\ud83d\\u0041\"")?);
    assert!(rt; !is_value(alloc, "\"\\u00g0\"")?);
    assert!(rt; !is_value(alloc, "\"\\u00e\"")?);
    assert!(rt; !is_value(alloc, "\"\\a\"")?);
    Ok(())
}

#[test]
fn other_texts_are_no_values(rt: HostRuntime) -> Result<(), AllocError> {
    let alloc = rt.alloc();
    assert!(rt; !is_value(alloc, "[01]")?);
    assert!(rt; !is_value(alloc, "[1,]")?);
    assert!(rt; !is_value(alloc, "{\"a\" 1}")?);
    assert!(rt; !is_value(alloc, "\"a\ttab\"")?);
    assert!(rt; !is_value(alloc, "[tru]")?);
    assert!(rt; !is_value(alloc, "[[[]]]")?);
    Ok(())
}
