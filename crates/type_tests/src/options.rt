use cache_types::{NoMemory, Text};
use cmd_words::{OptionList, OptionPair};

#[test]
fn options_are_copied(rt: HostRuntime) -> Result<(), NoMemory> {
    let alloc = rt.alloc();
    let mut options = OptionList::new(alloc);
    options.push(OptionPair {
        name: Text::of(alloc, "id")?,
        value: Text::of(alloc, "d")?,
    })?;
    let copy = options.copy(alloc)?;
    assert_eq!(rt; copy.as_slice().len(), 1);
    assert!(rt;
        copy.as_slice().iter().all(|option| option.name.as_str() == "id"
            && option.value.as_str() == "d")
    );
    Ok(())
}
