// The laws of what programs mean.

ghost use Rattle.pascal_mean.specs.MoreReplies.{MoreRepliesGoOn, EachCallTakesAReply};
ghost use Rattle.pascal_mean.specs.Batch.{BatchFits, BatchRepliesFit, EachEndsInBatch, EndsInOneWay};

/// A program takes the replies to its calls in order, one for each call, and more of them change
/// nothing that it did. The laws are in the contract.
pub fn replies_are_taken_in_order()
    ensures more { MoreRepliesGoOn }
    ensures each { EachCallTakesAReply }
{}

/// In the batch each program ends in one way, as it means with the batch's replies to the calls that it
/// makes. Each reply fits its call, and together they fit what the program means. The laws are in the
/// contract.
pub fn each_program_ends_in_the_batch()
    ensures ends { EachEndsInBatch }
    ensures one { EndsInOneWay }
    ensures fits { BatchFits }
    ensures replies { BatchRepliesFit }
{}
