use hall_trait::HallFault;
use std::test::Fail;

/// Each fault and its text.
const TEXTS: [(HallFault, &str); 3] = [
    (HallFault::Memory, "out of memory"),
    (HallFault::Spent(7), "number 7 is used up"),
    (
        HallFault::Full(2_049),
        "too many traces are open at place 2049",
    ),
];

#[test]
fn faults_tell_what_they_are(rt: HostRuntime) -> Result<(), Fail> {
    for (fault, text) in TEXTS {
        let told = format!(in rt.alloc(); "{fault}")?;
        assert_eq!(rt; told.as_str(), text);
    }
    Ok(())
}
