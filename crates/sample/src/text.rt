// The numbers of a text: decimal, each followed by one space or by the end of its line.

// Stores the numbers at the start of a room; none where the text has something else, or more than there is room for.
pub fn read_numbers<'a>(text: &[u8], room: &'a mut [u64]) -> Option<&'a [u64]> {
    let mut count = 0usize;
    let mut value = 0u64;
    for byte in text {
        match *byte {
            b' ' | b'\n' => {
                *room.get_mut(count)? = value;
                count += 1;
                value = 0;
            }
            b'0'..=b'9' => {
                value = value.checked_mul(10)?.checked_add(u64::from(*byte - b'0'))?;
            }
            _ => return None,
        }
    }
    room.get(..count)
}
