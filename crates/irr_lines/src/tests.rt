use crate::{next_line, one_list_of_lines};

#[test]
fn lines_end_with_a_line_feed(rt: HostRuntime) {
    one_list_of_lines();
    for (text, line, rest) in [
        ("a\nb", "a", "b"),
        ("a\r\nb", "a", "b"),
        ("a\r\r\n", "a\r", ""),
        ("\n\n", "", "\n"),
        ("\r\n", "", ""),
        ("a\rb\n", "a\rb", ""),
        ("a\r", "a\r", ""),
        ("a", "a", ""),
    ] {
        if !text.is_empty() {
            let (first, after) = next_line(text.as_bytes());
            assert_eq!(rt; first, line.as_bytes());
            assert_eq!(rt; after, rest.as_bytes());
        }
    }
}
