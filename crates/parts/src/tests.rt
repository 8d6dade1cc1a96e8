use crate::fill;

#[test]
fn first_elements_are_filled(rt: HostRuntime) {
    let mut numbers = [1, 2, 3, 4];
    fill(&mut numbers, 3, 9);
    assert_eq!(rt; numbers, [9, 9, 9, 4]);
}

#[test]
fn nothing_is_filled(rt: HostRuntime) {
    let mut numbers = [1, 2];
    fill(&mut numbers, 0, 9);
    assert_eq!(rt; numbers, [1, 2]);
}

#[test]
fn all_is_filled(rt: HostRuntime) {
    let mut places = [Some(1), None];
    fill(&mut places, 2, None);
    assert_eq!(rt; places, [None, None]);
}
