use crate::beside::call_both;
use crate::model::Model;
use card::Card;
use hits::Hit;
use rolls::Rolls;
use scan::rows::Row;
use scan::scan::Scan;
use std::process::Abort;
use std::test::Fail;

// Many calls on a scan over so many rows, beside the model.
fn scan_beside(rt: &(impl Abort + AllocGlobal), places: usize, seed: u32) -> Result<(), Fail> {
    let heap = rt.alloc();
    let mut rows = vec![in heap; Row::vacant(Card { slots: [0; 8] }); places]?;
    let mut model = Model::new(heap, places);
    let mut rolls = Rolls::new(seed);
    let mut index = Scan::new(rows.as_mut_slice());
    for turn in 0..1500 {
        let mut list = vec![in heap; Hit {
            number: 0,
            distance: 0
        }; turn % 13]?;
        call_both(rt, &mut index, &mut model, &mut rolls, list.as_mut_slice())?;
    }
    Ok(())
}

#[test]
fn scan_answers_as_the_model(rt: HostRuntime) -> Result<(), Fail> {
    for places in [0, 1, 2, 20] {
        scan_beside(&rt, places, 11)?;
    }
    Ok(())
}
