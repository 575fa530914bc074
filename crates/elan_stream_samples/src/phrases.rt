//! Laws do nothing.

use elan_phrases::laws::{
    long_sort_expressions, long_strategies, sixty_fifth_name, two_hundred_fifty_seventh_token,
};

#[test]
fn a_law_does_nothing() {
    long_sort_expressions();
    sixty_fifth_name();
    long_strategies();
    two_hundred_fifty_seventh_token();
}
