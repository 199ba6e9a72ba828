use no_memory::NoMemory;
use std::alloc::AllocError;
use std::test::Fail;

fn push_two(bytes: &mut Vec<u8>) -> Result<(), NoMemory> {
    bytes.push(1)?;
    bytes.extend_from_slice(&[2])?;
    Ok(())
}

#[test]
fn both_errors_of_the_allocator_become_it(rt: HostRuntime) -> Result<(), Fail> {
    let mut bytes = Vec::new(rt.alloc());
    assert_eq!(rt; push_two(&mut bytes), Ok(()));
    assert_eq!(rt; NoMemory::from(AllocError), NoMemory);
    assert_eq!(rt;
        format!(in rt.alloc(); "{}", NoMemory)?.as_str(),
        "no memory"
    );
    Ok(())
}
