use batch_procs::{Action, copy_feed};
use solo_base::{BufferNo, Feed, Ident, Line, Outcome};

/// What a process did. An action lends what its process lets go of in the step, so what is shown of it is
/// copied before.
#[derive(Drop)]
pub enum Deed {
    ReadCard,
    PutFeed(Feed),
    TakeFeed,
    AwaitRoom,
    AwaitItem,
    Request,
    PutPage { last: bool },
    TakePage,
    Load(Ident),
    Release,
    Local,
    Print(Line),
    Stop(BufferNo),
    Ended(Outcome),
}

impl Deed {
    /// What is shown of an action.
    pub fn of(action: &Action<'_>) -> Deed {
        match action {
            Action::ReadCard => Deed::ReadCard,
            Action::PutFeed(feed) => Deed::PutFeed(copy_feed(feed.get())),
            Action::TakeFeed => Deed::TakeFeed,
            Action::AwaitRoom => Deed::AwaitRoom,
            Action::AwaitItem => Deed::AwaitItem,
            Action::Request => Deed::Request,
            Action::PutPage(page) => Deed::PutPage {
                last: page.get().last(),
            },
            Action::TakePage => Deed::TakePage,
            Action::Load(file) => Deed::Load(*file),
            Action::Release => Deed::Release,
            Action::Local => Deed::Local,
            Action::Print(line) => Deed::Print(line.get().copy()),
            Action::Stop(buffer) => Deed::Stop(*buffer),
            Action::Ended(outcome) => Deed::Ended(*outcome),
        }
    }
}
