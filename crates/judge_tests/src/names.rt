use cache_types::{Name, Who};
use file_log::{Call, LogItem, Reply};
use operation_ledger::NamesHad;
use std::alloc::Global;
use std::test::Fail;
use world_tables::Tables;

const ME: Who = Who {
    process: 1,
    seat: 0,
};

/// Goes on over a call that is done.
fn follow(
    alloc: Global,
    tables: &mut Tables,
    names: &mut NamesHad,
    call: Call,
) -> Result<(), Fail> {
    let item = LogItem::Did {
        who: ME,
        call,
        reply: Reply::Done,
    };
    names.follow(tables, &item)?;
    if let LogItem::Did { who, call, reply } = &item {
        tables.answer(alloc, *who, call, reply)?;
    }
    Ok(())
}

#[test]
fn a_renamed_file_has_had_two_names(rt: HostRuntime) -> Result<(), Fail> {
    let alloc = rt.alloc();
    let mut tables = Tables::new(alloc);
    let mut names = NamesHad::new(alloc);
    let made = Call::OpenNew {
        slot: 0,
        name: Name::Db { root: 0 },
    };
    follow(alloc, &mut tables, &mut names, made)?;
    let renamed = Call::Rename {
        from: Name::Db { root: 0 },
        to: Name::Idx { root: 0 },
    };
    follow(alloc, &mut tables, &mut names, renamed)?;
    // The number of the first file is 0 where no file is there at first.
    let [first, second] = names.names_of(0) else {
        return Err("the file has had two names".into());
    };
    assert!(rt; first.is(&Name::Db { root: 0 }));
    assert!(rt; second.is(&Name::Idx { root: 0 }));
    assert_eq!(rt; names.names_of(5).len(), 0);
    Ok(())
}
