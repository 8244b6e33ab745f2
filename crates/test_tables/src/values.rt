use ios_acl::Packet;
use std::test::Fail;

/// The two parts of a text around its first blank.
pub fn parted(text: &str) -> Result<(&str, &str), Fail> {
    Ok(text.split_once(' ').ok_or("a text without a blank")?)
}

/// Writes the bytes, which are text.
pub fn push_bytes(text: &mut String, bytes: &[u8]) -> Result<(), Fail> {
    text.push_str(str::from_utf8(bytes).map_err(|_| "no text")?)?;
    Ok(())
}

/// Writes the number, or `none`.
pub fn push_number(text: &mut String, number: Option<u128>) -> Result<(), Fail> {
    match number {
        Some(n) => write!(text, "{n}")?,
        None => text.push_str("none")?,
    }
    Ok(())
}

/// Writes `yes` or `no`.
pub fn push_answer(text: &mut String, holds: bool) -> Result<(), Fail> {
    text.push_str(if holds { "yes" } else { "no" })?;
    Ok(())
}

/// Writes the fields of the packet, its addresses in hexadecimal digits.
pub fn push_packet(text: &mut String, packet: &Packet) -> Result<(), Fail> {
    let p = packet;
    write!(
        text,
        "{:x} {:x} {} {} {} {} {} {}",
        p.src, p.dst, p.sport, p.dport, p.proto, p.flags, p.icmp_type, p.icmp_code
    )?;
    Ok(())
}
