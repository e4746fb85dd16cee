//! The words of a case, one after the other: `None` where there is none or it stands for no value.

use net_base::{DpId, Mac, Moment, PortNo, Vid};
use std::str::SplitWhitespace;

pub fn number(words: &mut SplitWhitespace<'_>) -> Option<u64> {
    words.next()?.parse::<u64>().ok()
}

pub fn dp_id(words: &mut SplitWhitespace<'_>) -> Option<DpId> {
    Some(DpId(number(words)?))
}

pub fn moment(words: &mut SplitWhitespace<'_>) -> Option<Moment> {
    Some(Moment(number(words)?))
}

pub fn port_no(words: &mut SplitWhitespace<'_>) -> Option<PortNo> {
    PortNo::new(u32::try_from(number(words)?).ok()?)
}

pub fn vid(words: &mut SplitWhitespace<'_>) -> Option<Vid> {
    Vid::new(u16::try_from(number(words)?).ok()?)
}

pub fn mac(words: &mut SplitWhitespace<'_>) -> Option<Mac> {
    Mac::parse(words.next()?)
}
