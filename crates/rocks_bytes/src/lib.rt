//! Byte strings and texts that contracts see as the list of their bytes, whatever room they keep in reserve.
#![tactic(auto)]

mod bytes;
mod text;

pub use bytes::Bytes;
pub use text::Text;

#[cfg(test)]
mod tests {
    use super::*;
    use std::cmp::Ordering;
    use std::test::Fail;

    #[test]
    fn values_give_back_what_they_were_made_from(rt: HostRuntime) -> Result<(), Fail> {
        let alloc = rt.alloc();
        let bytes = Bytes::from([1, 255].to_vec(alloc)?);
        let copied = bytes.copy(alloc)?;
        assert_eq!(rt; copied, bytes);
        assert_eq!(rt; bytes.as_slice(), [1, 255].as_slice());
        assert_eq!(rt;
            bytes.cmp(&Bytes::from([1].to_vec(alloc)?)),
            Ordering::Greater
        );
        assert_eq!(rt; copied.into_vec().as_slice(), [1, 255].as_slice());

        let text = Text::from(String::from_str(alloc, "a\u{e9}")?);
        let same = text.copy(alloc)?;
        assert_eq!(rt; same, text);
        assert_eq!(rt; text.as_str(), "a\u{e9}");
        assert_eq!(rt;
            text.cmp(&Text::from(String::from_str(alloc, "b")?)),
            Ordering::Less
        );
        assert_eq!(rt; same.into_string().as_str(), "a\u{e9}");
        Ok(())
    }
}
