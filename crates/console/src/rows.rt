// Several rows as text: m and Q of each, one behind the other (document 02, item 6).

use crate::numbers::narrow;
use flow::DeclaredRow;

// The rows of up to ten numbers. A fifth row is left out: that there is one is said by the count of rows.
pub fn rows_of(numbers: &[u64; 10]) -> [DeclaredRow; 4] {
    let [m, q, m2, q2, m3, q3, m4, q4, _, _] = *numbers;
    [row_of(m, q), row_of(m2, q2), row_of(m3, q3), row_of(m4, q4)]
}

fn row_of(interval: u64, quota: u64) -> DeclaredRow {
    DeclaredRow::of(narrow(interval), narrow(quota))
}
